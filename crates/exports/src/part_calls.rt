// The reader in parts, its state in words that the caller keeps: the exported functions over `parts`.
ghost use Rattle.exports.specs.Parts.{StartTold, PartTold, CloseTold};

// The words of a reader in parts that has taken nothing.
#[unsafe(no_mangle)]
pub extern "C" fn orc_part_start(state: &mut [u64]) -> u64
    ensures { StartTold state.old state.new result }
{
    if state.len() < answer_words::parts::STATE_COUNT {
        return answer_words::TOO_FEW;
    }
    answer_words::parts::put_reader(parts::start(), state)
}

// A call with a part: it is taken up to the end of a run, whose rows go into the first of the rows lent, or all of it, or, where the call
// refuses, nothing of it. The bytes of the unfinished run stand in the bytes lent, from call to call.
#[unsafe(no_mangle)]
pub extern "C" fn orc_part_take(
    state: &mut [u64],
    held: &mut [u8],
    part: &[u8],
    flag: u64,
    rows: &mut [i64],
    words: &mut [u64],
) -> u64
    ensures { PartTold state.old state.new held.old held.new part.now flag rows.old rows.new words.old words.new result }
{
    if state.len() < answer_words::parts::STATE_COUNT {
        return answer_words::TOO_FEW;
    }
    if words.len() < answer_words::parts::COUNT {
        return answer_words::TOO_FEW;
    }
    let reader = answer_words::parts::reader_of(state);
    let step = parts::take(reader, part, flag != 0, held, rows);
    answer_words::parts::put_taken(step, state, words)
}

// The closing call: the stream's end, or the refusal of the run that is unfinished.
#[unsafe(no_mangle)]
pub extern "C" fn orc_part_close(
    state: &mut [u64],
    held: &mut [u8],
    flag: u64,
    rows: &mut [i64],
    words: &mut [u64],
) -> u64
    ensures { CloseTold state.old state.new held.old held.new flag rows.old rows.new words.old words.new result }
{
    if state.len() < answer_words::parts::STATE_COUNT {
        return answer_words::TOO_FEW;
    }
    if words.len() < answer_words::parts::COUNT {
        return answer_words::TOO_FEW;
    }
    let reader = answer_words::parts::reader_of(state);
    let step = parts::close(reader, flag != 0, held, rows);
    answer_words::parts::put_step(step, state, words)
}
