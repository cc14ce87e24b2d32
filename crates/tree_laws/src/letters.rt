// The letters of a run.
ghost use Rattle.world_model.specs.Meant.{LettersAreMeant};
ghost use Rattle.tree_laws.specs.Waking.{WakesBringLetters, WakesFindLetters};

/// In every run each outstanding message is meant for its addressee, and names what the script has. So a strict
/// transaction's home decides and hears of it, an update's nodes are released, and a node wakes what it deferred
/// itself. Nothing is assumed of the messages that came.
pub fn letters_are_meant()
    ensures { LettersAreMeant }
{}

/// In every run of enabled messages, as many Wakes of a subtransaction are in flight to a node as messages of it are
/// woken there.
pub fn wakes_find_letters()
    ensures { WakesFindLetters }
{}

/// So a Wake in flight finds a message to bring.
pub fn wakes_bring_letters()
    ensures { WakesBringLetters }
{}
