// What an image is written from.
ghost use Rattle.std.specs.Prelude.{◌≤◌, length};

use descent::Standing;

// What stands, with no more lines than an image may have.
#[derive(Drop)]
pub struct ImageSource<'a> {
    pub standing: Standing<'a>,
    ghost few: { length standing.lines.now ≤ 2048 },
}
