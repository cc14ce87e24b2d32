// Laws of what an entry may be that comes after an accepted history.
ghost use Rattle.std.specs.Prelude.{◌≡◌, ◌↔◌, ◌++◌, ◌∷◌, [], List};
ghost use Rattle.board_rules.specs.declared.rule_names.Rule.{Rule};
ghost use Rattle.board_rules.specs.Judging.{Breaks, IsAccepted, MayCome, KeepsAllRules, OfEachEntry};
ghost use Rattle.letter_types.specs.declared.entries.Entry.{Entry};
ghost use Rattle.script_parts.specs.ScriptData.{ScriptData};

/// A history is accepted, entry by entry, exactly if it keeps all rules: its acts are moves of the Board, keep to the
/// script and show the values in the serial order, and its entries do at once what they are asked for.
pub fn accepted_histories_keep_all_rules()
    ensures { (s : ScriptData) (h : List Entry) → (IsAccepted s h ↔ KeepsAllRules s h) }
{}

/// An accepted history with one entry more is accepted exactly if the entry may come after it.
pub fn one_entry_more_is_accepted()
    ensures { OfEachEntry (λ s h e. IsAccepted s h → (IsAccepted s (h ++ e ∷ []) ↔ MayCome s h e)) }
{}

/// An entry that breaks a rule may not come, and it breaks one rule first.
pub fn entries_break_one_rule()
    ensures may_not { OfEachEntry (λ s h e. (rule : Rule) → Breaks s h e rule → MayCome s h e → ⊥) }
    ensures one { OfEachEntry (λ s h e. (rule other : Rule) → Breaks s h e rule → Breaks s h e other → rule ≡ other) }
{}
