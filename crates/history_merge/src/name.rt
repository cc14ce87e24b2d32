// The name of a cluster, for types that are behind locks.
use stamp_post::PostName;
use std::marker::Brand;

/// The name of a post and a script. The caller of a function that is generic over a name picks what it means there.
pub trait ClusterName: PostName {
    ghost use Rattle.tx_trees.specs.ScriptData.{ScriptData};

    ghost script: { ScriptData };
}

impl ClusterName for Brand {
    ghost use Rattle.history_merge.specs.OwnLogs.{no_script};

    ghost script = { no_script };
}
