// A file once it has been read and accepted. Functions that read an accepted file take this; those of a day write its bytes and
// take them with the layout.
ghost use Rattle.std.specs.Prelude.{Ok, ◌≡◌};
ghost use Rattle.rules.specs.Refusals.{file_read};

use rules::Layout;

// The bytes of an accepted file, and where its rows stand in them.
#[derive(Clone, Copy)]
pub struct AcceptedFile<'a> {
    pub bytes: &'a [u8],
    pub layout: Layout,
    ghost accepted: { file_read bytes.now ≡ Ok layout },
}
