// The SysV hash values of document 01's table, a name and its hash a line; the first name is the empty one.
#![tactic(auto)]

use std::io;

fn show(rt: &impl Print, name: &str) -> io::Result<()> {
    let h = hash::sysv_hash(name.as_bytes());
    println!(rt; "{name} {h:08x}")
}

fn main(rt: HostRuntime) -> io::Result<()> {
    show(&rt, "")?;
    show(&rt, "printf")?;
    show(&rt, "exit")?;
    show(&rt, "syscall")?;
    show(&rt, "memcpy")
}
