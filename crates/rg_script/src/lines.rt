// The first line of a text, and the first word of a line.
ghost use Rattle.std.specs.Prelude.{◌≡◌, ◌<◌, ◌≤◌, ◌∷◌, length, option_map};
ghost use Rattle.rg_script.specs.Ends.{len_before, without_return};
ghost use Rattle.rg_script.specs.Lines.{lines_of};
ghost use Rattle.rg_script.specs.Words.{behind_space, front_word};

// How many bytes come before the first that is `stop`.
fn len_before(stop: u8, bytes: &[u8]) -> usize
    ensures value { result ≡ len_before stop bytes.now }
    ensures within { result ≤ length bytes.now }
{
    let mut n = 0;
    for byte in bytes {
        if *byte == stop {
            return n;
        }
        n += 1;
    }
    n
}

// The line without a CR at its end.
fn without_return(line: &[u8]) -> &[u8]
    ensures { result.now ≡ without_return line.now }
{
    match line.split_last() {
        Some((last, rest)) if *last == b'\r' => rest,
        _ => line,
    }
}

/// The first line of a text that isn't empty, and what follows it. A CR before the line's LF is dropped with the LF.
#[tactic(auto, using(crate::proofs::FirstLine::only_line, crate::proofs::FirstLine::first_line))]
pub fn split_line(bytes: &[u8]) -> (&[u8], &[u8])
    requires { 0 < length bytes.now }
    ensures lines { lines_of bytes.now ≡ result.0.now ∷ lines_of result.1.now }
    ensures shorter { length result.1.now < length bytes.now }
{
    let n = len_before(b'\n', bytes);
    if n == bytes.len() {
        return (bytes, &[]);
    }
    let line = bytes.split_at(n).0;
    let rest = bytes.split_at(n + 1).1;
    (without_return(line), rest)
}

/// What stands before the first space of a line, and what follows that space, where there is one.
#[tactic(auto, unfolding(crate::specs::Words::front_word, crate::specs::Words::behind_space))]
pub fn split_word(line: &[u8]) -> (&[u8], Option<&[u8]>)
    ensures word { result.0.now ≡ front_word line.now }
    ensures rest { option_map (λ rest. rest.now) result.1 ≡ behind_space line.now }
{
    let n = len_before(b' ', line);
    let word = line.split_at(n).0;
    if n == line.len() {
        return (word, None);
    }
    (word, Some(line.split_at(n + 1).1))
}
