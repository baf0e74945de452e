// What is handed over to be written, counted. Only this file makes a `Said`, and only by handing over what is due: whoever holds one has
// handed over so much.
ghost use Rattle.std.specs.Prelude.{◌≡◌};
ghost use Rattle.runs.specs.Program.{program_text, nothing_said, Due, SaidOn};

use blocks::reading::Reads;

// How many bytes were handed over, and whether the system did not take the last of them. (No Result: the count is told in both cases,
// and `AfterBlock` speaks of `cut`.)
#[derive(Clone, Copy)]
pub(crate) struct Said {
    bytes: u64,
    cut: bool,
}

impl Said {
    // Nothing yet.
    pub(crate) fn nothing() -> Self
        ensures { result ≡ nothing_said }
    {
        Said {
            bytes: 0,
            cut: false,
        }
    }

    pub(crate) fn is_cut(self) -> bool
        ensures { result ≡ self.cut }
    {
        self.cut
    }

    // Every byte that the program writes to its output goes through here, beside the bytes that it answers: it is what the definition writes
    // for them, and what comes next of the text for all that was read. No contract can say what the system writes, so that it is said here of
    // what is handed over.
    pub(crate) fn say(
        self,
        rt: &(impl Print + Eprint),
        reads: Reads,
        asked: &[u8],
        text: &[u8],
    ) -> Self
        requires { (text.now ≡ program_text asked.now) × Due reads self text.now }
        ensures { SaidOn self text.now result }
    {
        let wrote = rt.write_all(text);
        let cut = wrote.is_err();
        if let Err(e) = wrote {
            let _ = eprintln!(rt;
                "runs: the output is cut, standard output cannot be written: {e}"
            );
        }
        Said {
            bytes: self.bytes.wrapping_add(text.len() as u64),
            cut,
        }
    }
}
