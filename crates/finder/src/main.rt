// The finder at a terminal or a pipe: one call a line on standard input, one answer line back for each.
#![tactic(auto)]

mod calls;
mod files;
mod kits;
mod notes;
mod options;
mod session;
mod trouble;

use bits::Bits;
use calls::parse_command;
use codes::Code;
use notes::write_greeting;
use options::{CodeName, Options, read_options};
use packets::Packets;
use session::Session;
use std::io;
use std::io::{BufRead, BufReader, Write};
use trouble::{Mistake, Trouble, write_trouble};

// Writes the lines at once, since standard output has no buffer.
fn tell(rt: &HostRuntime, out: &mut Vec<u8>) -> io::Result<()> {
    rt.stdout().write_all(out.as_slice())?;
    out.clear();
    Ok(())
}

// The line of a call that came to nothing, in place of what it wrote so far. Without memory even for that, it is printed at once.
fn tell_trouble(rt: &HostRuntime, out: &mut Vec<u8>, trouble: Trouble) -> io::Result<()> {
    out.clear();
    match write_trouble(out, trouble) {
        Ok(()) => tell(rt, out),
        Err(_) => {
            out.clear();
            println!(rt; "error {}", Mistake::Memory)
        }
    }
}

// Carries out the command in a line. A line that is blank or a remark has none.
fn perform_line<C: Code + Drop>(
    rt: &HostRuntime,
    session: &mut Session<C>,
    line: &[u8],
    out: &mut Vec<u8>,
) -> Result<(), Trouble> {
    let mut words = Vec::new(rt.alloc());
    if let Some(command) = parse_command(rt.alloc(), line, &mut words)? {
        session.perform(rt, command, out)?;
    }
    Ok(())
}

fn answer_line<C: Code + Drop>(
    rt: &HostRuntime,
    session: &mut Session<C>,
    line: &[u8],
    out: &mut Vec<u8>,
) -> io::Result<()> {
    match perform_line(rt, session, line, out) {
        Ok(()) => tell(rt, out),
        Err(trouble) => tell_trouble(rt, out, trouble),
    }
}

// A line without its line break, which the last one may lack.
fn text_of(line: &[u8]) -> &[u8] {
    match line {
        [text @ .., b'\n'] => text,
        text => text,
    }
}

// Answers the lines of standard input up to its end.
fn serve<C: Code + Drop>(
    rt: &HostRuntime,
    session: &mut Session<C>,
    out: &mut Vec<u8>,
) -> io::Result<()> {
    let mut input = BufReader::new(rt.alloc(), rt.stdin())?;
    let mut line = Vec::new(rt.alloc());
    // A count, since input may go on for ever and each loop is proved to end.
    for _ in 0..u64::MAX {
        line.clear();
        if input.read_until(b'\n', &mut line)? == 0 {
            break;
        }
        answer_line(rt, session, text_of(&line), out)?;
    }
    Ok(())
}

// Sets the catalogue up as the arguments say.
fn start<C: Code + Drop>(
    rt: &HostRuntime,
    options: &Options,
    out: &mut Vec<u8>,
) -> Result<Session<C>, Trouble> {
    write_greeting(out, options.code)?;
    let mut session = Session::<C>::new(rt.alloc())?;
    if let Some(path) = &options.image {
        session.load(rt, path.as_str(), out)?;
    }
    Ok(session)
}

// Started wrong, the program ends with status 1, so that no empty catalogue is saved over a good one.
fn give_up(rt: &HostRuntime, out: &mut Vec<u8>, trouble: Trouble) -> io::Result<()> {
    tell_trouble(rt, out, trouble)?;
    Err(io::Error::from(io::ErrorKind::InvalidInput))
}

// Starts and serves over one sort of code.
fn run<C: Code + Drop>(rt: &HostRuntime, options: &Options, out: &mut Vec<u8>) -> io::Result<()> {
    match start::<C>(rt, options, out) {
        Ok(mut session) => {
            tell(rt, out)?;
            serve(rt, &mut session, out)
        }
        Err(trouble) => give_up(rt, out, trouble),
    }
}

fn main(rt: HostRuntime) -> io::Result<()> {
    let mut out = Vec::new(rt.alloc());
    let options = match read_options(&rt) {
        Ok(options) => options,
        Err(mistake) => return give_up(&rt, &mut out, Trouble::Mistaken(mistake)),
    };
    match options.code {
        CodeName::Bits => run::<Bits>(&rt, &options, &mut out),
        CodeName::Packets => run::<Packets>(&rt, &options, &mut out),
    }
}
