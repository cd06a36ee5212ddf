// What a call gave: done, yes or no, the words that it wrote, or its refusal.
use std::io;
use words::Fault;

pub fn show_done<F: Fault + Drop>(rt: &HostRuntime, done: Result<(), F>) -> io::Result<()> {
    match done {
        Ok(()) => println!(rt; "ok"),
        Err(fault) => println!(rt; "{}", fault.refusal()),
    }
}

pub fn show_verdict<F: Fault + Drop>(rt: &HostRuntime, fits: Result<bool, F>) -> io::Result<()> {
    match fits {
        Ok(true) => println!(rt; "ok yes"),
        Ok(false) => println!(rt; "ok no"),
        Err(fault) => println!(rt; "{}", fault.refusal()),
    }
}

// The words that a call wrote to the start of a list.
pub fn show_words<F: Fault + Drop>(
    rt: &HostRuntime,
    written: Result<usize, F>,
    list: &[u32],
) -> io::Result<()> {
    match written {
        Ok(count) => {
            print!(rt; "ok")?;
            for word in list.iter().take(count) {
                print!(rt; " {word:08X}")?;
            }
            println!(rt; "")
        }
        Err(fault) => println!(rt; "{}", fault.refusal()),
    }
}
