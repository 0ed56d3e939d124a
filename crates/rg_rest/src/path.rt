// Which routes a path fits.
ghost use Rattle.std.specs.Prelude.{◌≡◌, ◌++◌, ◌&&◌, IfOk, MatchOption, MatchResult, OnOk, drop, find, length, nat_eq, string_bytes, false, true};
ghost use Rattle.std.specs.List.{starts_with};
ghost use Rattle.std.specs.Str.{bytes_eq, chars};
ghost use Rattle.rg_rest.specs.Paths.{ends_as, fits, is_known, is_segment};
ghost use Rattle.rg_rest.specs.Patterns.{Inserts, IsRoute, Misses, Takes, end_text, pattern_text, same_path, same_tail};
ghost use Rattle.rg_rest.specs.Table.{all_routes, row_of};

use crate::query::is_number;
use crate::route::{Route, Tail};
use matchit::Router;
use rg_base::{NoMemory, same_text};
use std::alloc::Global;
use std::marker::Model;

// Whether it is one segment of a path that isn't empty.
fn is_segment(end: &str) -> bool
    ensures { result ≡ is_segment end.now }
{
    0 < end.len() && !end.as_bytes().contains(&b'/')
}

// Whether this end of a path is what a route wants.
#[tactic(auto, unfolding(crate::specs::Paths::ends_as))]
fn ends_as(plugin: &str, tail: Tail, end: &str) -> bool
    ensures { result ≡ ends_as (chars plugin.now) tail end.now }
{
    match tail {
        Tail::Nothing => end.is_empty(),
        Tail::Name => is_segment(end),
        Tail::Id => is_number(18, end),
        Tail::Plugin => is_segment(end) && same_text(end, plugin),
    }
}

// What follows the text in the path, where the path begins with it.
fn stripped<'a>(path: &'a str, text: &str) -> Option<&'a str>
    ensures { MatchOption result (starts_with nat_eq path.now text.now ≡ false)
        (λ end. (starts_with nat_eq path.now text.now ≡ true) × (end.now ≡ drop (length text.now) path.now)) }
{
    path.strip_prefix(text)
}

// Whether the path is the route's.
#[tactic(auto, unfolding(crate::specs::Paths::fits))]
fn fits(plugin: &str, path: &str, route: Route) -> bool
    ensures { result ≡ fits (chars plugin.now) path.now route }
{
    let row = route.row();
    match stripped(path, row.text) {
        None => false,
        Some(end) => ends_as(plugin, row.tail, end),
    }
}

// What a route's pattern has behind the text.
fn end_text(tail: Tail) -> &'static str
    ensures { result.now ≡ end_text tail }
{
    match tail {
        Tail::Nothing => "",
        Tail::Name | Tail::Id | Tail::Plugin => "{end}",
    }
}

// A route's pattern, as `matchit` reads it.
fn pattern_text(alloc: Global, route: Route) -> Result<String, NoMemory>
    ensures { IfOk result (λ text. string_bytes text ≡ pattern_text route) }
{
    let row = route.row();
    let mut text = String::from_str(alloc, row.text)?;
    text.push_str(end_text(row.tail))?;
    Ok(text)
}

// Whether two ends are wanted alike.
fn same_tail(a: Tail, b: Tail) -> bool
    ensures { result ≡ same_tail a b }
{
    a == b
}

// Whether two routes have the same path.
fn same_path(a: Route, b: Route) -> bool
    ensures { result ≡ same_path a b }
{
    let (a, b) = (a.row(), b.row());
    a.text == b.text && same_tail(a.tail, b.tail)
}

// Whether the route has the path of another, and this method.
fn is_asked(shared: Route, method: &str, route: Route) -> bool
    ensures { result ≡ (same_path shared route && bytes_eq (row_of route).method method.now) }
{
    same_path(shared, route) && route.row().method.as_str() == method
}

// The route with the path of another, and this method.
fn with_method(shared: Route, method: &str) -> Option<Route>
    ensures { result
        ≡ find (λ r. same_path shared r && bytes_eq (row_of r).method method.now) all_routes }
{
    Route::all()
        .iter()
        .copied()
        .find(|route| is_asked(shared, method, *route))
}

// Adds a route's path.
#[tactic(auto, using(crate::proofs::Inserts::insertions))]
fn add(alloc: Global, patterns: &mut Router<Route>, route: Route) -> Result<(), NoMemory>
    ensures { OnOk result (Inserts route patterns.old patterns.new) }
{
    let text = pattern_text(alloc, route)?;
    match patterns.insert(text.as_str(), route) {
        Ok(()) => Ok(()),
        Err(_) => Err(NoMemory),
    }
}

/// Why no route is found.
#[derive(Clone, Copy, Debug, PartialEq, Eq)]
pub(crate) enum Missing {
    /// No route has the path.
    Path,
    /// No route with the path has the method.
    Method,
}

/// The paths of all routes.
#[derive(Drop)]
pub(crate) struct Paths {
    patterns: Router<Route>,
}

impl Model for Paths {
    ghost use Rattle.std.specs.Prelude.{⊤};
    ghost use Rattle.rg_rest.specs.Patterns.{KnowsRoutes};

    ghost Value = { ⊤ };

    ghost view = { λ p. tt };

    ghost invariant = { λ p. KnowsRoutes p.patterns };
}

impl Paths {
    /// Those of all routes.
    pub(crate) fn new(alloc: Global) -> Result<Paths, NoMemory> {
        let mut patterns = Router::new(alloc);
        for route in Route::paths() {
            add(alloc, &mut patterns, *route)?;
        }
        Ok(Paths { patterns })
    }

    // A route with this path, whose end isn't judged.
    #[tactic(auto, using(crate::proofs::Knowing::taking))]
    fn at(&self, path: &str) -> Option<Route>
        ensures { Takes result path.now }
    {
        match self.patterns.at(path) {
            Ok(found) => Some(*found.value),
            Err(_) => None,
        }
    }

    // A route that has the path.
    #[tactic(auto, using(crate::proofs::Exclusive::knowing))]
    fn find(&self, plugin: &str, path: &str) -> Option<Route>
        ensures { MatchOption result (is_known (chars plugin.now) path.now ≡ false)
            (λ r. fits (chars plugin.now) path.now r ≡ true) }
    {
        match self.at(path) {
            None => None,
            Some(route) if fits(plugin, path, route) => Some(route),
            Some(_) => None,
        }
    }

    /// The route with this path and this method, and what follows the route's text in the path.
    #[tactic(auto, using(crate::proofs::Exclusive::knowing, crate::proofs::Paths::paths))]
    pub(crate) fn find_route<'a>(
        &self,
        plugin: &str,
        path: &'a str,
        method: &str,
    ) -> Result<(Route, &'a str), Missing>
        ensures { MatchResult result (λ f. IsRoute (chars plugin.now)
            path.now method.now f.0 f.1.now) (Misses (chars plugin.now) path.now method.now) }
    {
        let Some(shared) = self.find(plugin, path) else {
            return Err(Missing::Path);
        };
        let Some(route) = with_method(shared, method) else {
            return Err(Missing::Method);
        };
        match stripped(path, route.row().text) {
            None => Err(Missing::Method),
            Some(end) => Ok((route, end)),
        }
    }
}
