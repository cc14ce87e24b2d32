// Kinds of trees.
ghost use Rattle.std.specs.Prelude.{◌≡◌};
ghost use Rattle.script_parts.specs.ScriptData.{is_read, is_strict, is_update};

use crate::parts::TreeKind;

/// Whether this is the kind of update trees.
pub fn is_update(kind: TreeKind) -> bool
    ensures { result ≡ is_update kind }
{
    match kind {
        TreeKind::Update => true,
        TreeKind::Read => false,
        TreeKind::Strict => false,
    }
}

/// Whether this is the kind of read trees.
pub fn is_read(kind: TreeKind) -> bool
    ensures { result ≡ is_read kind }
{
    match kind {
        TreeKind::Update => false,
        TreeKind::Read => true,
        TreeKind::Strict => false,
    }
}

/// Whether this is the kind of strict trees.
pub fn is_strict(kind: TreeKind) -> bool
    ensures { result ≡ is_strict kind }
{
    match kind {
        TreeKind::Strict => true,
        TreeKind::Update => false,
        TreeKind::Read => false,
    }
}
