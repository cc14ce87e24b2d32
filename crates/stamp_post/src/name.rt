// The name of a post, for types that are behind a lock.
use std::marker::Brand;

/// The name of a post. Only the type of a value behind a lock is known, so such a type takes a name. The caller of a
/// function that is generic over a name picks what it means there.
pub trait PostName {
    ghost use Rattle.stamp_post.specs.Shown.{PostId};

    ghost post: { PostId };
}

impl PostName for Brand {
    ghost use Rattle.stamp_post.specs.Shown.{no_post};

    ghost post = { no_post };
}
