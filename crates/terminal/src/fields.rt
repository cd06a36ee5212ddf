// Reads a line field by field. A line is bytes, since what comes in may be no text.
ghost use Rattle.std.specs.Prelude.{◌≡◌, ◌+◌, ◌<◌, ◌≤◌, false, [], ◌∷◌, ◌++◌, length, drop, not, IfSome, MatchOption};
ghost use Rattle.std.specs.List.{prefix_len};
ghost use Rattle.std.specs.Iterator.{YieldsFirstRef, item_count};
ghost use Rattle.terminal.specs.Fields.{is_space, any_space, whole, fields, Plain, rest, fields_left};

// What is left of a line: an iterator over its fields.
#[derive(Clone, Copy)]
pub struct Fields<'a> {
    left: &'a [u8],
}

impl<'a> Fields<'a> {
    pub fn new(line: &'a [u8]) -> Fields<'a>
        ensures { rest result ≡ line.now }
    {
        Fields { left: line }
    }
}

impl<'a> Iterator for Fields<'a> {
    type Item = &'a [u8];

    ghost next_gives = { YieldsFirstRef fields_left };

    ghost remaining = { item_count fields_left };

    // The next field, or None where only spaces are left.
    fn next(&mut self) -> Option<&'a [u8]>
        ensures cases { MatchOption result (fields_left self.old ≡ []) (λ field. fields_left self.old ≡ field.now ∷ fields_left self.new) }
        ensures left { MatchOption result (fields_left self.new ≡ []) (λ _. length (rest self.new) < length (rest self.old)) }
        ensures plain { IfSome result (λ field. Plain field.now) }
    {
        let (field, left) = split_field(self.left);
        self.left = left;
        if field.is_empty() { None } else { Some(field) }
    }
}

fn is_space(byte: u8) -> bool
    ensures { result ≡ is_space byte }
{
    matches!(byte, b' ' | b'\t' | b'\r')
}

// The first field and what follows it. An empty field says that none is left: no Option, which its one caller would have to take apart
// while it keeps what follows either way.
fn split_field(line: &[u8]) -> (&[u8], &[u8])
    ensures first { fields line.now ≡ whole result.0.now ++ fields result.1.now }
    ensures plain { any_space result.0.now ≡ false }
    ensures within { length result.0.now + length result.1.now ≤ length line.now }
    ensures none { length result.0.now ≡ 0 → result.1.now ≡ [] }
{
    let (_, text) = line.split_at(space_len(line));
    text.split_at(field_len(text))
}

// How many spaces stand before all else.
fn space_len(line: &[u8]) -> usize
    ensures { result ≡ prefix_len is_space line.now }
{
    line.iter().take_while(|byte| is_space(**byte)).count()
}

// How many bytes stand before the first space.
fn field_len(text: &[u8]) -> usize
    ensures { result ≡ prefix_len (λ byte. not (is_space byte)) text.now }
{
    text.iter().take_while(|byte| !is_space(**byte)).count()
}
