// What holds of every history of a machine. These functions do nothing when they run.
ghost use Rattle.std.specs.Prelude.{◌≡◌, ℕ, ◌≤◌, List, [], ◌∷◌, ◌++◌, length};
ghost use Rattle.rg_turn.specs.declared.rule.Entry.{Entry};
ghost use Rattle.rg_turn.specs.History.{state_after, state_at, IsLegal};

use crate::machine::Machine;

/// A beginning of a legal history is legal, and a history that goes on keeps its states.
pub fn beginnings<M: Machine>()
    ensures legal { (s : M.State) (h k : List (Entry M.Ask M.Reply))
        → IsLegal M.transition s (h ++ k) → IsLegal M.transition s h }
    ensures states { (s : M.State) (h k : List (Entry M.Ask M.Reply)) (n : ℕ)
        → n ≤ length h → state_at M.transition s (h ++ k) n ≡ state_at M.transition s h n }
{}

/// A legal history stays legal by one more entry exactly where the entry's reply is the machine's in the state after the history.
/// That reply leaves the machine's new state.
pub fn one_more_entry<M: Machine>()
    ensures legal { (s : M.State) (h : List (Entry M.Ask M.Reply)) (e : Entry M.Ask M.Reply)
        → IsLegal M.transition s h → (M.transition (state_after M.transition s h) e.ask).1 ≡ e.reply
        → IsLegal M.transition s (h ++ e ∷ []) }
    ensures reply { (s : M.State) (h : List (Entry M.Ask M.Reply)) (e : Entry M.Ask M.Reply)
        → IsLegal M.transition s (h ++ e ∷ [])
        → (M.transition (state_after M.transition s h) e.ask).1 ≡ e.reply }
    ensures state { (s : M.State) (h : List (Entry M.Ask M.Reply)) (e : Entry M.Ask M.Reply)
        → state_after M.transition s (h ++ e ∷ [])
        ≡ (M.transition (state_after M.transition s h) e.ask).0 }
{}
