// A board that keeps posted lines: a machine with texts and lists in all its parts.
ghost use Rattle.rg_base.specs.Listed.{added};
ghost use Rattle.std.specs.Prelude.{◌≡◌};

use crate::callers::ended;
use rg_base::{NoMemory, Seq, Text, TryCopy};
use rg_turn::{Machine, Seat, Turn};
use std::alloc::Global;
use std::sync::Wait;

#[derive(Drop)]
struct Board {
    lines: Seq<Text>,
}

#[derive(Drop)]
struct Post {
    line: Text,
    marks: Seq<Text>,
}

#[derive(Drop)]
struct Posted {
    line: Text,
    marks: Seq<Text>,
}

/// The board as contracts see it.
struct Lines {
    lines: Seq<Text>,
}

impl Machine for Board {
    type Ask = Post;

    type Reply = Posted;

    type State = Lines;

    ghost state = { λ b. record { lines = b.lines } };

    ghost transition = { λ s p. (record { lines = added s.lines p.line }, record { line = p.line; marks = p.marks }) };

    fn step(&mut self, alloc: Global, post: Post) -> Result<Posted, NoMemory> {
        let Post { line, marks } = post;
        let copy = line.try_copy(alloc)?;
        self.lines.add(line)?;
        Ok(Posted { line: copy, marks })
    }
}

fn posting(alloc: Global, line: &str, mark: &str) -> Result<Post, NoMemory> {
    let mut marks = Seq::new(alloc);
    marks.add(Text::copy_of(alloc, mark)?)?;
    Ok(Post {
        line: Text::copy_of(alloc, line)?,
        marks,
    })
}

/// Posts a line with a mark, and appends what is replied.
fn post_and_tell<R: Wait>(
    told: &mut String,
    rt: &R,
    alloc: Global,
    turn: &Turn<Board>,
    seat: &mut Seat<Board>,
    texts: (&str, &str),
) -> Result<(), NoMemory>
    requires { seat.old.turn ≡ turn.now.turn }
    ensures { seat.new.turn ≡ seat.old.turn }
{
    let (line, mark) = texts;
    let posted = turn.call(rt, alloc, seat, posting(alloc, line, mark)?)?;
    let marks = posted.marks.len();
    write!(told, "{} with marks {marks}, ", posted.line.as_str())?;
    Ok(())
}

/// Two lines are posted through one seat.
pub(crate) fn two_posts<R: Wait>(rt: &R, alloc: Global) -> Option<String> {
    let board = Board {
        lines: Seq::new(alloc),
    };
    let Ok((turn, mut seats)) = Turn::new(alloc, board, 1) else {
        return None;
    };
    let mut seat = seats.pop()?;
    let mut told = String::new(alloc);
    post_and_tell(&mut told, rt, alloc, &turn, &mut seat, ("one", "x")).ok()?;
    post_and_tell(&mut told, rt, alloc, &turn, &mut seat, ("two", "y")).ok()?;
    if seats.push(seat).is_err() {
        return None;
    }
    let (board, entries) = ended(alloc, turn, seats)?;
    let lines = board.lines.len();
    write!(told, "lines {lines}, entries {entries}").ok()?;
    Some(told)
}
