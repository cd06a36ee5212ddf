// A catalogue's image: written, and read into an empty catalogue, where all of it is checked before anything is changed.
ghost use Rattle.std.specs.Prelude.{◌≡◌, ◌≤◌, true, [], map, length, vec_capacity, OnOk};
ghost use Rattle.words.specs.Refusals.{Says, image_told};
ghost use Rattle.formats.specs.Formats.{Listed, image_of, pairs_in};
ghost use Rattle.descent.specs.Order.{rising_from, line_key};
ghost use Rattle.formats.specs.Images.{ReadsBack, TellsApart};
ghost use Rattle.catalogue.specs.Ledger.{read_image, write_image, refused};
ghost use Rattle.catalogue.specs.View.{view, Moved};

use super::sorted::Sorted;
use super::state::Catalogue;
use descent::Line;
use formats::ImageSource;
use words::{ImageFault, low_bits};

// Takes a line from each two words, one behind another, where none stands yet. The pattern is the form that this project has for
// the words of a line.
fn take_lines(lines: &mut Sorted<Line>, words: &[u32])
    requires none { lines.old.entries.items ≡ [] }
    requires room { length (pairs_in words.now) ≤ lines.old.most }
    requires rising { rising_from 0 (map line_key (pairs_in words.now)) ≡ true }
    ensures entries { lines.new.entries.items ≡ pairs_in words.now }
    ensures most { lines.new.most ≡ lines.old.most }
    ensures capacity { vec_capacity lines.new.entries ≡ vec_capacity lines.old.entries }
{
    let mut left = words;
    while let [child, parent, rest @ ..] = left {
        lines.push(Line {
            child: low_bits(*child),
            parent: low_bits(*parent),
        });
        left = rest;
    }
}

impl Catalogue {
    // Writes the image of what stands, and tells how many words it has. The image reads back as the same kinds and
    // lines, and no other kinds and lines have it.
    pub fn write_image(&self, image: &mut [u32]) -> Result<usize, ImageFault>
        ensures says { Says image_told result (refused (view self.now).book (write_image (length image.old))) }
        ensures list { Listed (image_of (view self.now).book.kinds (view self.now).book.lines) image.old image.new result }
        ensures back { ReadsBack (view self.now).book.wide (view self.now).book.kinds (view self.now).book.lines }
        ensures alone { TellsApart (view self.now).book.kinds (view self.now).book.lines }
    {
        let source = ImageSource {
            standing: self.standing(),
        };
        formats::write_image(&source, image)
    }

    // Fills an empty catalogue with the kinds and lines of an image, which then writes back as the same words.
    pub fn read_image(&mut self, words: &[u32]) -> Result<(), ImageFault>
        ensures moved { Moved image_told (read_image words.now) (view self.old) (view self.new) result }
        ensures back { OnOk result (image_of (view self.new).book.kinds (view self.new).book.lines ≡ words.now) }
    {
        if !self.seats.kinds.entries.is_empty() {
            return Err(ImageFault::NotEmpty);
        }
        let count = formats::check_image(words, self.width())?;
        self.seats.seat_names(&words[1..count + 1]);
        take_lines(&mut self.lines, &words[count + 1..]);
        self.closed = false;
        Ok(())
    }
}
