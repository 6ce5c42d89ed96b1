// The program's work: from an image's bytes to the lines that it writes.
// A line for each word stepped, up to the first that is refused, and one that counts those done; for a refused image one line with the reply. A line that does not fit is left out whole.
#![tactic(auto)]

ghost use Rattle.std.specs.Prelude.{◌≡◌, ◌≤◌, length};
ghost use Rattle.image.specs.Reading.{list_after};
ghost use Rattle.transcript.specs.Transcript.{lines_of, transcript_of, after_all, placed_all};

use registers::State;

// The lines of an image, put into the lent buffer; how many bytes they have. Its words are put in the lent list.
pub fn transcript(image: &[u8], words: &mut [u32], out: &mut [u8]) -> usize
    ensures value { result ≡ after_all (transcript_of (length words.old) image.now) 0 (length out.old) }
    ensures out_after { out.new ≡ placed_all (transcript_of (length words.old) image.now) 0 out.old }
    ensures words_after { words.new ≡ list_after image.now words.old }
{
    match image::read(image, words) {
        Err(refusal) => report::image_line(refusal.number(), 0, out),
        Ok(reading) => word_lines(reading.state, &words[..reading.count], out),
    }
}

// The words stepped, over the state's parts.
fn word_lines(state: State, words: &[u32], out: &mut [u8]) -> usize
    requires { length words.now ≤ 4096 }
    ensures value { result ≡ after_all (lines_of state 0 words.now) 0 (length out.old) }
    ensures out_after { out.new ≡ placed_all (lines_of state 0 words.now) 0 out.old }
{
    let settings = state.settings();
    let mut flags = registers::parts::bits_of_flags(state.flags);
    let mut x = state.x;
    let mut p = registers::parts::words_of(state.p);
    let mut counts = registers::parts::numbers_of(state.counts);
    let mut at = 0;
    for (done, &word) in words.iter().enumerate() {
        let reply = machine::engine::step(settings, &mut flags, &mut x, &mut p, &mut counts, word);
        let after = registers::parts::flags_of(flags);
        at = report::word_line(done as u32, word, replies::number(reply), after, at, out);
        if reply.is_err() {
            return report::end_line(done as u32, at, out);
        }
    }
    report::end_line(words.len() as u32, at, out)
}
