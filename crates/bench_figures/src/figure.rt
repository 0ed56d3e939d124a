// The works by name.
use crate::{admin, engine, http, passes, patterns, session, trie, turn};
use anyhow::Result;
use std::alloc::Global;
use std::sync::Wait;
use std::thread::Threads;
use std::time::Clock;

#[derive(Clone, Copy)]
pub(crate) enum Figure {
    Patterns,
    Trie,
    Turn,
    Http,
    Admin,
    Engine,
    Session,
    Passes,
}

/// All of them.
pub(crate) const FIGURES: [Figure; 8] = [
    Figure::Patterns,
    Figure::Trie,
    Figure::Turn,
    Figure::Http,
    Figure::Admin,
    Figure::Engine,
    Figure::Session,
    Figure::Passes,
];

impl Figure {
    /// The word that names the work, and its script in bench/.
    pub(crate) fn name(self) -> &'static str {
        match self {
            Figure::Patterns => "patterns",
            Figure::Trie => "trie",
            Figure::Turn => "turn",
            Figure::Http => "http",
            Figure::Admin => "admin",
            Figure::Engine => "engine",
            Figure::Session => "session",
            Figure::Passes => "passes",
        }
    }

    /// What is done.
    pub(crate) fn title(self) -> &'static str {
        match self {
            Figure::Patterns => "matching and overlap",
            Figure::Trie => "edits, walks and counts",
            Figure::Turn => "calls by turns, from four threads",
            Figure::Http => "messages framed, responses printed",
            Figure::Admin => "single calls of an administration",
            Figure::Engine => "an engine built and asked",
            Figure::Session => "links that ask for decisions",
            Figure::Passes => "passes on threads beside a publisher",
        }
    }

    /// The work that a word names.
    pub(crate) fn of_name(name: &str) -> Option<Figure> {
        FIGURES.into_iter().find(|figure| figure.name() == name)
    }

    /// Does the work, as much of it as the words say.
    pub(crate) fn run<R: Print + Threads + Wait + Clock + Sync>(
        self,
        rt: &R,
        alloc: Global,
        words: &[String],
    ) -> Result<()> {
        match self {
            Figure::Patterns => patterns::run(rt, alloc, words),
            Figure::Trie => trie::run(rt, alloc, words),
            Figure::Turn => turn::run(rt, alloc, words),
            Figure::Http => http::run(rt, alloc, words),
            Figure::Admin => admin::run(rt, alloc, words),
            Figure::Engine => engine::run(rt, alloc, words),
            Figure::Session => session::run(rt, alloc, words),
            Figure::Passes => passes::run(rt, alloc, words),
        }
    }
}
