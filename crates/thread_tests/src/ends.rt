// The top call over ends in memory that fail.
use crate::words::words_of;
use std::alloc::Global;
use std::sync::Wait;
use std::test::Fail;
use std::thread::Threads;
use threev_top::{Host, threev};
use tv_base::{MemSink, MemSource, NoGate};

/// A script of 24 bytes, and its text of 35.
const SMALLEST: &str = "nodes,1\nitem,a,0,sum,10\n";

const TEXT: &[u8] = b"node 0 update 1 read 0\nitem a 0:10\n";

/// The ends of a call: what is read, and which calls of the ends fail, each by its number; 0 stands for none.
#[derive(Clone, Copy)]
struct Ends {
    script: &'static str,
    /// The call of the source that fails. Each call gives one byte.
    failing_read: u32,
    out_room: usize,
    /// How many bytes a call of out takes, at least 1.
    out_most: usize,
    failing_write: u32,
    err_room: usize,
}

/// Ends that never fail, byte by byte.
const GOOD: Ends = Ends {
    script: SMALLEST,
    failing_read: 0,
    out_room: 100,
    out_most: 1,
    failing_write: 0,
    err_room: 100,
};

/// The status of a call in mode sim, how many bytes out has then, and whether the text begins with them.
fn ended<R: Threads + Wait + Sync>(
    rt: &R,
    alloc: Global,
    ends: Ends,
) -> Result<(u8, usize, bool), Fail> {
    if ends.out_most == 0 {
        return Err("no byte a call".into());
    }
    let words = words_of(alloc, &["threev", "--mode", "sim"])?;
    let script = ends.script.as_bytes().to_vec(alloc)?;
    let mut source = MemSource::new(script, 1, [ends.failing_read].to_vec(alloc)?);
    let failing = [ends.failing_write].to_vec(alloc)?;
    let mut out = MemSink::new(alloc, ends.out_room, ends.out_most, failing)?;
    let mut err = MemSink::new(alloc, ends.err_room, 16, Vec::new(alloc))?;
    let host = Host {
        rt,
        alloc,
        gate: &NoGate,
    };
    let ended = threev(&host, &words, &mut source, &mut out, &mut err);
    let written = out.bytes();
    Ok((ended.status, written.len(), TEXT.starts_with(written)))
}

// Byte by byte the script takes 24 reads, and one more finds its end.
#[test]
fn each_read_that_fails_leaves_out_empty(rt: HostRuntime) -> Result<(), Fail> {
    for failing_read in 1..27 {
        let ends = Ends {
            failing_read,
            ..GOOD
        };
        let want = if failing_read == 26 {
            (0, 35, true)
        } else {
            (4, 0, true)
        };
        assert_eq!(rt;
            ended(&rt, rt.alloc(), ends)?,
            want,
            "at read {failing_read}"
        );
    }
    Ok(())
}

// Byte by byte the text takes 35 writes.
#[test]
fn each_write_that_fails_leaves_a_prefix_of_the_report(rt: HostRuntime) -> Result<(), Fail> {
    for failing_write in 1..37 {
        let ends = Ends {
            failing_write,
            ..GOOD
        };
        let want = if failing_write == 36 {
            (0, 35, true)
        } else {
            (5, failing_write as usize - 1, true)
        };
        assert_eq!(rt;
            ended(&rt, rt.alloc(), ends)?,
            want,
            "at write {failing_write}"
        );
    }
    Ok(())
}

#[test]
fn sinks_may_be_full(rt: HostRuntime) -> Result<(), Fail> {
    let full = Ends {
        out_room: 20,
        out_most: 64,
        ..GOOD
    };
    assert_eq!(rt; ended(&rt, rt.alloc(), full)?, (5, 20, true));
    let refused = Ends {
        script: "",
        err_room: 0,
        ..GOOD
    };
    assert_eq!(rt; ended(&rt, rt.alloc(), refused)?, (3, 0, true));
    Ok(())
}
