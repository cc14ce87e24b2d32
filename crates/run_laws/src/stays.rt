// What the values that read trees show rest on, and that they stay right.
ghost use Rattle.run_laws.specs.EachRun.{OfEachHistory};
ghost use Rattle.run_laws.specs.Stays.{ReadsStayRight, WritersAreFirst};

/// In every run, before each Did of a read, all updates and strict transactions of the read's version and older ones
/// are complete: none of them takes effect later.
pub fn writers_come_before_reads()
    ensures { OfEachHistory WritersAreFirst }
{}

/// So what the steps of reads gave stays right: these are the values that the whole history has at their versions.
pub fn what_reads_show_stays()
    ensures { OfEachHistory ReadsStayRight }
{}
