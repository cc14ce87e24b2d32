// Laws of items: at most three versions are held, and in the end the balances of the report.
ghost use Rattle.std.specs.Prelude.{reverse};
ghost use Rattle.board_rules.specs.Right.{HasFinished};
ghost use Rattle.headline.specs.Held.{HasHeldThree, HoldsBalances};
ghost use Rattle.run_laws.specs.EachRun.{OfEachHistory, OfEachRun};

/// In every run of every valid script, with strict transactions or without, after each part of it, a node holds at most
/// three versions of each of its items: from its low version to at most its update version, which is at most two above
/// the low version.
pub fn no_item_has_held_more_than_three()
    ensures { OfEachHistory HasHeldThree }
{}

/// In every run in which the client has finished, a node holds exactly the report's balances of each of its items: the
/// item's value in the serial order at the last version that was shown, and at the next one if a transaction of that
/// version changes it.
pub fn nodes_hold_the_balances()
    ensures { OfEachRun (λ s past. HasFinished (reverse past) → HoldsBalances s (reverse past)) }
{}
