// A catalogue over one sort of code with the lists that its calls work in, and what each command does to it.
use super::calls::{Command, WHOLE};
use super::files::{load_words, save_words};
use super::kits::Kits;
use super::notes::{write_help, write_lost, write_refused_kit, write_standing};
use super::trouble::Trouble;
use catalogue::{Catalogue, SetUpFault};
use codes::Code;
use histories::{Call, Memory, Reply, full_memory, make};
use protocol::{write_ok, write_ok_kits, write_ok_words, write_ring, write_verdict};
use std::alloc::Global;
use std::io;
use words::{Part, low_bits};

// The lists are taken once, and serve every call.
#[derive(Drop)]
pub struct Session<C: Code> {
    catalogue: Catalogue,
    memory: Memory<C::Row>,
}

impl<C: Code + Drop> Session<C> {
    pub fn new(heap: Global) -> Result<Session<C>, SetUpFault> {
        Ok(Session {
            catalogue: Catalogue::new(heap, C::places())?,
            memory: full_memory::<C>(heap)?,
        })
    }

    // Writes lines for people and the answer's line to `out`. A command that came to nothing leaves its line to the caller.
    pub fn perform(
        &mut self,
        rt: &HostRuntime,
        command: Command<'_>,
        out: &mut Vec<u8>,
    ) -> Result<(), Trouble> {
        match command {
            Command::Make(call) => return self.answer(call, out),
            Command::Kits(path) => return self.kits(rt, path, out),
            Command::Load(path) => self.load(rt, path, out)?,
            Command::Save(path) => self.save(rt, path, out)?,
            Command::Help => write_help(out)?,
        }
        write_ok(out)?;
        Ok(())
    }

    // Where a ring stands, the refusal's line has the ring's words besides: a head, and as many names as it counts.
    fn answer(&mut self, call: Call<'_>, out: &mut Vec<u8>) -> Result<(), Trouble> {
        let mut lists = self.memory.lend();
        match make::<C>(&mut self.catalogue, &mut lists, call) {
            Ok(Reply::Done) => write_ok(out)?,
            Ok(Reply::Words(count)) => write_ok_words(out, &lists.words[..count])?,
            Ok(Reply::Verdict(fits)) => write_verdict(out, fits)?,
            Err(refusal) if refusal.part == Part::Closing => {
                let count = low_bits(lists.ring[0]) as usize + 1;
                write_ring(out, refusal, &lists.ring[..count])?
            }
            Err(refusal) => return Err(Trouble::Refused(refusal)),
        }
        Ok(())
    }

    // Reads an image file, and tells how much stands.
    pub fn load(&mut self, rt: &HostRuntime, path: &str, out: &mut Vec<u8>) -> Result<(), Trouble> {
        let words = load_words(rt, path)?;
        let mut lists = self.memory.lend();
        make::<C>(
            &mut self.catalogue,
            &mut lists,
            Call::ReadImage { words: &words },
        )?;
        self.note_standing(out)?;
        Ok(())
    }

    fn save(&mut self, rt: &HostRuntime, path: &str, out: &mut Vec<u8>) -> Result<(), Trouble> {
        let mut lists = self.memory.lend();
        let call = Call::WriteImage { image: WHOLE };
        let Reply::Words(count) = make::<C>(&mut self.catalogue, &mut lists, call)? else {
            unreachable!()
        };
        save_words(rt, path, &lists.words[..count])?;
        self.note_standing(out)?;
        Ok(())
    }

    fn note_standing(&self, out: &mut Vec<u8>) -> io::Result<()> {
        let standing = self.catalogue.standing();
        write_standing(out, standing.kinds.len(), standing.lines.len())
    }

    // Recalls each kit of a file, and tells of those that lost kinds or are no answers.
    fn kits(&mut self, rt: &HostRuntime, path: &str, out: &mut Vec<u8>) -> Result<(), Trouble> {
        let words = load_words(rt, path)?;
        let mut count = 0;
        let mut changed = 0;
        let mut lists = self.memory.lend();
        // Counted by hand, since the number of all kits is written at the end besides.
        for kit in Kits::new(&words) {
            count += 1;
            let call = Call::Recall {
                words: kit,
                answer: WHOLE,
            };
            match make::<C>(&mut self.catalogue, &mut lists, call) {
                Ok(Reply::Words(left)) => {
                    if left < kit.len() {
                        changed += 1;
                        write_lost(out, count, kit, &lists.words[..left])?;
                    }
                }
                Ok(_) => unreachable!(),
                Err(refusal) => write_refused_kit(out, count, refusal)?,
            }
        }
        write_ok_kits(out, count, changed)?;
        Ok(())
    }
}
