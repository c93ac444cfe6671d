// The upload's calls of the C interface, with its structs by value.
ghost use Rattle.std.specs.Prelude.{◌≡◌};
ghost use Rattle.j8.specs.Runs.{upload_fresh, upload_feed, upload_finish};

use structs::uploads;
use structs::uploads::{J8Fed, J8Upload};
use upload::uploads::Upload;

pub fn j8_upload_fresh() -> J8Upload
    ensures { result ≡ upload_fresh }
{
    uploads::upload_of(Upload::fresh())
}

pub fn j8_upload_feed(upload: J8Upload, piece: &[u8], line: &mut [u8], out: &mut [u8]) -> J8Fed
    ensures answer { result ≡ (upload_feed upload piece.now line.old out.old).fed }
    ensures held { line.new ≡ (upload_feed upload piece.now line.old out.old).line }
    ensures stored { out.new ≡ (upload_feed upload piece.now line.old out.old).out }
{
    let s = uploads::state_of(upload);
    let f = s.feed(piece, line, out);
    uploads::fed_from(f)
}

pub fn j8_upload_finish(upload: J8Upload, line: &[u8], out: &mut [u8]) -> J8Fed
    ensures answer { result ≡ (upload_finish upload line.now out.old).fed }
    ensures held { line.now ≡ (upload_finish upload line.now out.old).line }
    ensures stored { out.new ≡ (upload_finish upload line.now out.old).out }
{
    let s = uploads::state_of(upload);
    let f = s.finish(line, out);
    uploads::fed_from(f)
}
