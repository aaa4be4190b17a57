//! Texts beside their first fault, with each number at its edges and one beyond.

use super::*;
use std::alloc::{AllocError, Global};
use std::test::Fail;

/// A text and its first fault a line; a semicolon stands for the end of a line.
const ROWS: &str = " => fine
order = \"none\" => fine
order = \"partition\" => fine
order = \"key\" => fine
order = \"Key\" => bad value of order
order = 1 => bad value of order
function = \"length\" => fine
function = \"bytesum\" => fine
function = \"hex\" => fine
function = \"sha\" => bad value of function
function = [] => bad value of function
bad_map = \"redo\" => fine
bad_map = \"refuse\" => fine
bad_map = \"skip\" => bad value of bad_map
bad_map = true => bad value of bad_map
workers = 1 => fine
workers = 256 => fine
workers = 0 => workers lies outside 1 to 256
workers = 257 => workers lies outside 1 to 256
map_limit = 0 => fine
map_limit = 4096 => fine
map_limit = -1 => map_limit lies outside 0 to 4096
map_limit = 4097 => map_limit lies outside 0 to 4096
press_percent = 1 => fine
press_percent = 100 => fine
press_percent = 0 => press_percent lies outside 1 to 100
press_percent = 101 => press_percent lies outside 1 to 100
give_up = 1 => fine
give_up = 1000000 => fine
give_up = 0 => give_up lies outside 1 to 1000000
give_up = 1000001 => give_up lies outside 1 to 1000000
buffer = 1 => fine
buffer = 1000000 => fine
buffer = 0 => buffer lies outside 1 to 1000000
buffer = 1000001 => buffer lies outside 1 to 1000000
poll_max = 1 => fine
poll_max = 1000000 => fine
poll_max = 0 => poll_max lies outside 1 to 1000000
poll_max = 1000001 => poll_max lies outside 1 to 1000000
commit_every = 1 => fine
commit_every = 1000000 => fine
commit_every = 0 => commit_every lies outside 1 to 1000000
commit_every = 1000001 => commit_every lies outside 1 to 1000000
workers = \"4\" => bad value of workers
buffer = 1.5 => bad value of buffer
workers = -9223372036854775808 => workers lies outside 1 to 256
workers = 9223372036854775807 => workers lies outside 1 to 256
workers = 9223372036854775808 => not TOML
delays = [0] => fine
delays = [86400000] => fine
delays = [86400001] => delays lies outside 0 to 86400000
delays = [1, -1] => delays lies outside 0 to 86400000
delays = [] => delays lies outside 1 to 16
delays = [1,1,1,1,1,1,1,1,1,1,1,1,1,1,1,1] => fine
delays = [1,1,1,1,1,1,1,1,1,1,1,1,1,1,1,1,1] => delays lies outside 1 to 16
delays = [1,1,1,1,1,1,1,1,1,1,1,1,1,1,1,1,86400001] => delays lies outside 1 to 16
delays = [1,1,1,1,1,1,1,1,1,1,1,1,1,1,1,1,\"1\"] => bad value of delays
delays = [86400001, true] => bad value of delays
delays = 100 => bad value of delays
fail = [] => fine
fail = {} => bad value of fail
fail = [1] => bad value of fail
fail = [{}, 1] => bad value of fail
fail = [{}] => missing key fail.part
[[fail]];part = 0;offset = 0;times = 1 => fine
[[fail]];part = 1023;offset = 9223372036854775806;times = 1000000 => fine
[[fail]];part = 1024 => fail.part lies outside 0 to 1023
[[fail]];part = -1 => fail.part lies outside 0 to 1023
[[fail]];part = true => bad value of fail.part
[[fail]];part = 0 => missing key fail.offset
[[fail]];part = 0;offset = 9223372036854775807 => fail.offset lies outside 0 to 9223372036854775806
[[fail]];part = 0;offset = -1 => fail.offset lies outside 0 to 9223372036854775806
[[fail]];part = 0;offset = 0 => missing key fail.times
[[fail]];part = 0;offset = 0;times = 0 => fail.times lies outside 1 to 1000000
[[fail]];part = 0;offset = 0;times = 1000001 => fail.times lies outside 1 to 1000000
[[fail]];z = 1;y = 1;part = 1024 => unknown key fail.y
[[fail]];part = 0;offset = 0;times = 1;[[fail]];times = 1 => missing key fail.part
start = 0 => bad value of start
start = [{}, \"a\"] => bad value of start
[[start]]; => missing key start.part
[[start]];part = 0;position = 0 => fine
[[start]];part = 1023;position = 9223372036854775807;map = \"a\" => fine
[[start]];part = 1024 => start.part lies outside 0 to 1023
[[start]];part = 0 => missing key start.position
[[start]];part = 0;position = -1 => start.position lies outside 0 to 9223372036854775807
[[start]];part = 0;position = 9223372036854775808 => not TOML
[[start]];part = 0;position = \"0\" => bad value of start.position
[[start]];part = 0;position = 0;map = 1 => bad value of start.map
[[start]];part = 0;position = 0;x = 1 => unknown key start.x
[[start]];part = 7;position = 0;[[start]];part = 7 => bad value of start.part
[[start]];part = 7;position = 0;[[start]];part = 7;w = 0 => unknown key start.w
[[start]];part = 7;position = 0;[[start]];part = 8;position = 0 => fine
b = 1;a = 1;workers = 0 => unknown key a
Workers = 1 => unknown key Workers
\"\" = 1;a = 1 => unknown key 
workers = 0;order = 1 => bad value of order
workers = 0;function = 1 => bad value of function
delays = [];press_percent = 0 => press_percent lies outside 1 to 100
start = 1;fail = 1;give_up = 0 => give_up lies outside 1 to 1000000
start = 1;fail = 1 => bad value of fail
fail = 1;bad_map = 1;commit_every = 0 => commit_every lies outside 1 to 1000000
fail = 1;bad_map = 1 => bad value of bad_map
workers => not TOML
workers = 1;workers = 1 => not TOML
x = 1;workers =  => not TOML";

#[test]
fn first_faults(rt: HostRuntime) -> Result<(), Fail> {
    let alloc = rt.alloc();
    for row in ROWS.lines() {
        let (text, want) = row.split_once(" => ").ok_or("a row without its fault")?;
        let text = text.replace(alloc, ";", "\n")?;
        let seen = printed(alloc, text.as_bytes())?;
        assert_eq!(rt; seen.as_str(), want, "{row}");
    }
    let map = "[[start]]\npart = 0\nposition = 0\nmap = \"";
    let long = repeated(alloc, map, "a", 4_096, "\"")?;
    assert_eq!(rt; printed(alloc, long.as_bytes())?.as_str(), "fine");
    let longer = repeated(alloc, map, "a", 4_097, "\"")?;
    let outside = "start.map lies outside 0 to 4096";
    assert_eq!(rt; printed(alloc, longer.as_bytes())?.as_str(), outside);
    let most = repeated(alloc, "start = [", "{},", 1_024, "]")?;
    assert_eq!(rt;
        printed(alloc, most.as_bytes())?.as_str(),
        "missing key start.part"
    );
    let more = repeated(alloc, "start = [", "{},", 1_025, "]")?;
    let outside = "start lies outside 0 to 1024";
    assert_eq!(rt; printed(alloc, more.as_bytes())?.as_str(), outside);
    assert_eq!(rt; printed(alloc, b"\xff")?.as_str(), "not TOML");
    assert_eq!(rt; default_config(alloc)?.workers, 16);
    Ok(())
}

/// What comes of a text: its first fault in words, or `fine`.
fn printed(alloc: Global, text: &[u8]) -> Result<String, AllocError> {
    match read_config(alloc, text) {
        Ok(_) => String::from_str(alloc, "fine"),
        Err(fault) => format!(in alloc; "{fault}"),
    }
}

fn repeated(
    alloc: Global,
    front: &str,
    piece: &str,
    count: u32,
    back: &str,
) -> Result<String, AllocError> {
    let mut text = String::from_str(alloc, front)?;
    for _ in 0..count {
        text.push_str(piece)?;
    }
    text.push_str(back)?;
    Ok(text)
}
