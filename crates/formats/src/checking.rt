// Words that should be an image, checked from the left.
ghost use Rattle.std.specs.Prelude.{◌≡◌, ◌+◌, ◌*◌, ◌<◌, ◌≤◌, length, IfOk};
ghost use Rattle.descent.specs.Lines.{stands};
ghost use Rattle.descent.specs.Order.{line_key};
ghost use Rattle.words.specs.Refusals.{Says, catalogue_told, image_told};
ghost use Rattle.formats.specs.Formats.{serials_in, line_in, named_refusal, child_refusal, parent_refusal, line_refusal, end_refusal, lines_refusal, image_refusal, count_in};

use super::names::{Names, check_names};
use descent::{Line, MAX_LINES};
use search::{Keyed, locate};
use words::{CatalogueFault, ImageFault, WordKind, check_serial, is_kind, low_bits};

impl Names<'_> {
    // Whether a serial is among the names.
    fn has(&self, serial: u32) -> bool
        ensures { result ≡ stands serial (serials_in self.now.words.now) }
    {
        locate(self.words, serial as u64).is_ok()
    }

    // A kind at the end of a line has to be among the names.
    fn check_named(&self, serial: u32, at: usize) -> Result<(), CatalogueFault>
        ensures { Says catalogue_told result (named_refusal (serials_in self.now.words.now) at serial) }
    {
        check_serial(serial, at)?;
        if !self.has(serial) {
            return Err(CatalogueFault::KindMissing(at));
        }
        Ok(())
    }

    // The child of a line, at its index.
    fn check_child(&self, child: u32, at: usize) -> Result<(), ImageFault>
        ensures { Says image_told result (child_refusal (serials_in self.now.words.now) at child) }
    {
        if !is_kind(child, WordKind::Child) {
            return Err(ImageFault::NotDue(at));
        }
        self.check_named(low_bits(child), at)?;
        Ok(())
    }
}

// The lines that were checked: between which names, how many, and the key of the last.
#[derive(Drop)]
struct Lines<'a> {
    names: Names<'a>,
    count: usize,
    last: u64,
    ghost few: { count ≤ 2048 },
}

impl Lines<'_> {
    // The index of the word behind them.
    fn at(&self) -> usize
        ensures { result ≡ length self.now.names.words.now + 1 + 2 * self.now.count }
    {
        self.names.words.len() + 1 + 2 * self.count
    }

    // The parent behind a child. Gives the key of their line.
    fn check_parent(&self, child: u32, parent: u32, at: usize) -> Result<u64, ImageFault>
        ensures says { Says image_told result (parent_refusal (serials_in self.now.names.words.now) self.now.count self.now.last at child parent) }
        ensures key { IfOk result (λ key. (key ≡ line_key (line_in child parent)) × (self.now.count < 2048)) }
    {
        if !is_kind(parent, WordKind::Parent) {
            return Err(ImageFault::NotDue(at));
        }
        let line = Line {
            child: low_bits(child),
            parent: low_bits(parent),
        };
        self.names.check_named(line.parent, at)?;
        if line.child == line.parent {
            return Err(CatalogueFault::OwnParent(at).into());
        }
        if self.count >= MAX_LINES {
            return Err(CatalogueFault::LinesFull(at).into());
        }
        let key = line.key();
        if key <= self.last {
            return Err(ImageFault::NotDue(at));
        }
        Ok(key)
    }

    // Checks one more line.
    fn push(&mut self, child: u32, parent: u32) -> Result<(), ImageFault>
        ensures says { Says image_told result (line_refusal (serials_in self.old.names.words.now) self.old.count self.old.last (length self.old.names.words.now + 1 + 2 * self.old.count) child parent) }
        ensures moved { IfOk result (λ _. (self.new.count ≡ self.old.count + 1) × (self.new.last ≡ line_key (line_in child parent))) }
        ensures names { self.new.names.words.now ≡ self.old.names.words.now }
    {
        let at = self.at();
        self.names.check_child(child, at)?;
        self.last = self.check_parent(child, parent, at + 1)?;
        self.count += 1;
        Ok(())
    }
}

// The end counts the words before it, and is the last word.
fn check_end(end: u32, at: usize, after: &[u32]) -> Result<(), ImageFault>
    ensures { Says image_told result (end_refusal at end after.now) }
{
    if low_bits(end) as usize != at {
        return Err(ImageFault::NotDue(at));
    }
    if !after.is_empty() {
        return Err(ImageFault::NotDue(at + 1));
    }
    Ok(())
}

// Lines in order between these names, and then the end.
fn check_lines(names: Names<'_>, words: &[u32]) -> Result<(), ImageFault>
    ensures { Says image_told result (lines_refusal (serials_in names.entry.words.now) 0 0 (length names.entry.words.now + 1) words.now) }
{
    let mut lines = Lines {
        names,
        count: 0,
        last: 0,
    };
    let mut left = words;
    while let [child, parent, rest @ ..] = left {
        if is_kind(*child, WordKind::ImageEnd) {
            return check_end(*child, lines.at(), &left[1..]);
        }
        lines.push(*child, *parent)?;
        left = rest;
    }
    let at = lines.at();
    let [end] = left else {
        return Err(ImageFault::NotDue(at));
    };
    if is_kind(*end, WordKind::ImageEnd) {
        return check_end(*end, at, &[]);
    }
    lines.names.check_child(*end, at)?;
    Err(ImageFault::NotDue(at + 1))
}

// Words that are an image for a catalogue of so many places. Gives how many kinds it names.
pub fn check_image(words: &[u32], width: usize) -> Result<usize, ImageFault>
    ensures says { Says image_told result (image_refusal width words.now) }
    ensures count { IfOk result (λ count. count ≡ count_in words.now) }
{
    let (head, rest) = match words {
        [head, rest @ ..] if is_kind(*head, WordKind::ImageHead) => (*head, rest),
        _ => return Err(ImageFault::NotDue(0)),
    };
    let count = low_bits(head);
    if count as usize > width {
        return Err(CatalogueFault::Full.into());
    }
    let (names, lines) = check_names(rest, count)?;
    check_lines(names, lines)?;
    Ok(count as usize)
}
