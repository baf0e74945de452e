// Blocks cut into lines, and the lines answered: the part of the program that neither reads nor writes.
ghost use Rattle.runs.specs.Program.{Cut};

// How many bytes of the input are answered, and how many bytes the answers take.
#[derive(Clone, Copy)]
pub(crate) struct Progress {
    pub taken: usize,
    pub written: usize,
}

// Answers the whole lines of the input, from the first on, while there is room for any answer.
pub(crate) fn answer_lines(input: &[u8], out: &mut [u8]) -> Progress
    ensures { Cut input.now out.old out.new result.taken result.written }
{
    let mut taken = 0;
    let mut written = 0;
    while lines::ANSWER_ROOM <= out.len() - written {
        let end = blocks::line_end(input, taken);
        if end == input.len() {
            return Progress { taken, written };
        }
        written += lines::answer_line(&input[taken..end], &mut out[written..]);
        taken = end + 1;
    }
    Progress { taken, written }
}
