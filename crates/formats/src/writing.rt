// Writing the image of what stands: a head, a name for each kind, two words for each line, and an end.
ghost use Rattle.std.specs.Prelude.{◌≡◌, ◌*◌, map, length};
ghost use Rattle.std.specs.List.{flat_map};
ghost use Rattle.descent.specs.Lines.{serials_of};
ghost use Rattle.words.specs.declared.word.WordKind.TheVariants.{Name};
ghost use Rattle.words.specs.Words.{word_of};
ghost use Rattle.words.specs.Refusals.{Says, image_told, list_refusal};
ghost use Rattle.formats.specs.Formats.{Listed, image_of, image_length, line_words};
ghost use Rattle.formats.specs.Images.{ReadsBack, TellsApart};

use super::source::ImageSource;
use descent::Standing;
use words::{ImageFault, WordKind, make_word, need};

// Writes a name for each kind.
fn write_names(standing: &Standing<'_>, names: &mut [u32])
    requires { length names.old ≡ length standing.now.kinds.now }
    ensures { names.new ≡ map (word_of Name) (serials_of standing.now.kinds.now) }
{
    for (i, kind) in standing.kinds.iter().enumerate() {
        names[i] = make_word(WordKind::Name, kind.serial);
    }
}

// Writes a child word and a parent word for each line.
fn write_lines(standing: &Standing<'_>, words: &mut [u32])
    requires { length words.old ≡ 2 * length standing.now.lines.now }
    ensures { words.new ≡ flat_map line_words standing.now.lines.now }
{
    for (i, line) in standing.lines.iter().enumerate() {
        words[2 * i] = make_word(WordKind::Child, line.child);
        words[2 * i + 1] = make_word(WordKind::Parent, line.parent);
    }
}

// Writes the image of what stands, and tells how many words it has. The image reads back as the same kinds and lines, and no
// other kinds and lines have it.
pub fn write_image(source: &ImageSource<'_>, image: &mut [u32]) -> Result<usize, ImageFault>
    ensures says { Says image_told result (list_refusal (length image.old) (image_length (serials_of source.now.standing.kinds.now) source.now.standing.lines.now)) }
    ensures list { Listed (image_of (serials_of source.now.standing.kinds.now) source.now.standing.lines.now) image.old image.new result }
    ensures back { ReadsBack source.now.standing.width (serials_of source.now.standing.kinds.now) source.now.standing.lines.now }
    ensures alone { TellsApart (serials_of source.now.standing.kinds.now) source.now.standing.lines.now }
{
    let standing = &source.standing;
    let names = standing.kinds.len();
    let end = 1 + names + 2 * standing.lines.len();
    need(image.len(), end + 1)?;
    image[0] = make_word(WordKind::ImageHead, names as u32);
    write_names(standing, &mut image[1..1 + names]);
    write_lines(standing, &mut image[1 + names..end]);
    image[end] = make_word(WordKind::ImageEnd, end as u32);
    Ok(end + 1)
}
