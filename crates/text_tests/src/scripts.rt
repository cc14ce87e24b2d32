use script_reader::{read_script, write_script};
use std::alloc::Global;
use std::test::Fail;
use tx_trees::{Refusal, Why};

/// Two nodes, two transactions, an advancement and picks.
const WHOLE: &[u8] =
    b"nodes,2\nitem,a,0,sum,10\nitem,b,1,sum,0\nupdate,t,0\nadd,a,5\nsub,0,1\nadd,b,7\n\
    advance\nupdate,u,1\nadd,b,3\npick,0\npick,0\npick,0\npick,3\n";

/// The same as other bytes.
const SPELLED: &[u8] =
    b"nodes,02\r\nitem,a,0,sum,10\n\nitem,b,1,\"sum\",-0\nupdate,t,0\nadd,a,5\nsub,0,1\nadd,b,7\n\
    advance\nupdate,u,1\nadd,b,3\npick,0\npick,0\npick,0\npick,3";

/// The same, with another last pick.
const OTHER: &[u8] =
    b"nodes,2\nitem,a,0,sum,10\nitem,b,1,sum,0\nupdate,t,0\nadd,a,5\nsub,0,1\nadd,b,7\n\
    advance\nupdate,u,1\nadd,b,3\npick,0\npick,0\npick,0\npick,2\n";

/// Whether the script of a text is written as this text.
fn is_written(alloc: Global, text: &[u8], want: &[u8]) -> Result<bool, Fail> {
    let script = read_script(alloc, text)?;
    let written = write_script(alloc, &script).map_err(|_| "no memory")?;
    Ok(written.bytes() == want)
}

/// Whether the scripts of two texts are equal.
fn are_equal(alloc: Global, one: &[u8], other: &[u8]) -> Result<bool, Fail> {
    let one = read_script(alloc, one)?;
    let other = read_script(alloc, other)?;
    Ok(one == other)
}

#[test]
fn a_script_is_written_as_it_is_read(rt: HostRuntime) -> Result<(), Fail> {
    assert!(rt; is_written(rt.alloc(), WHOLE, WHOLE)? && is_written(rt.alloc(), SPELLED, WHOLE)?);
    Ok(())
}

#[test]
fn scripts_are_equal_by_what_they_hold(rt: HostRuntime) -> Result<(), Fail> {
    assert!(rt; are_equal(rt.alloc(), WHOLE, SPELLED)? && !are_equal(rt.alloc(), WHOLE, OTHER)?);
    Ok(())
}

#[test]
fn a_refusal_has_a_text(rt: HostRuntime) -> Result<(), Fail> {
    let refusal = Refusal::Why(Why::NameTaken);
    assert_eq!(rt;
        format!(in rt.alloc(); "{refusal}")?.as_str(),
        "another item, or another tree, has the name"
    );
    Ok(())
}
