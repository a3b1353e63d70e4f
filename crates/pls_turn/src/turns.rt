//! Taking the turn, and giving it back.
ghost use Rattle.std.specs.Prelude.{◌≡◌, ◌≢◌, ℕ, ◌+◌, ◌*◌, ◌%◌, ◌<◌, [], ◌∷◌, length};
ghost use Rattle.pls_archive.specs.SharedCalls.{Answers};
ghost use Rattle.pls_turn.specs.Turns.{resting};
ghost use Rattle.pls_turn.specs.TurnRule.{IsInTurn, MayGive};
ghost use Rattle.pls_turn.specs.Passes.{terms_of, view_of, IsSeatOf, IsPassOf};
ghost use Rattle.pls_turn.specs.TurnSeats.{HasTurn, HasArchive, IsDue};

use crate::answers::Answer;
use crate::plays::{GiveBack, Said, TakeTurn};
use crate::seen::Turn;
use crate::turned::{TurnPass, Turned};
use atomic_table::Seat;
use pls_archive::{Rule, Single};
use std::hint::spin_loop;
use std::marker::Brand;
use std::sync::Wait;
use std::thread::yield_now;

// How often a caller looks at the word before it lets other threads run.
const LOOKS: u32 = 64;

impl<S: Single> Turned<S> {
    // One exchange, which takes the turn where the word is as it was guessed: the word that was found.
    fn try_take(&self, seat: &mut Seat<S, Turn<S>>, guess: u64) -> u64
        requires seat { IsSeatOf self.now seat.old }
        requires even { guess % 2 ≡ 0 }
        ensures taken { result ≡ guess → HasTurn S.Law.Rule S.Single self.now seat.old.me.0.view seat.new
            × HasArchive S.Law.Rule S.Single self.now seat.new.me.0.view.observed seat.new
            × (guess ≡ 2 * length seat.new.me.0.view.observed) }
        ensures missed { result ≢ guess → IsSeatOf self.now seat.new × (seat.new.me.0.view ≡ seat.old.me.0.view) }
    {
        self.table
            .shared
            .compare_exchange::<TakeTurn<S>>(seat, 0, guess, guess + 1)
    }

    // A word at which the turn may be free, where this one says that it is held.
    fn await_turn(&self, held: u64) -> u64
        requires { held % 2 ≡ 1 }
        ensures { result % 2 ≡ 0 }
    {
        for _ in 0..LOOKS {
            spin_loop();
            let found = self.table.shared.peek(0);
            if found % 2 == 0 {
                return found;
            }
        }
        yield_now();
        held - 1
    }

    // Takes the turn as soon as it is free: how many accepting entries there are.
    pub(crate) fn take_turn<R: Wait>(&self, rt: &R, seat: &mut Seat<S, Turn<S>>, word: u64) -> u64
        requires seat { IsSeatOf self.now seat.old }
        requires even { word % 2 ≡ 0 }
        ensures turn { HasTurn S.Law.Rule S.Single self.now seat.old.me.0.view seat.new }
        ensures archive { HasArchive S.Law.Rule S.Single self.now seat.new.me.0.view.observed seat.new }
        ensures count { result ≡ length seat.new.me.0.view.observed }
    {
        let mut guess = word;
        for _ in rt.forever() {
            let found = self.try_take(seat, guess);
            if found == guess {
                return found / 2;
            }
            guess = if found % 2 == 0 {
                found
            } else {
                self.await_turn(found)
            };
        }
        unreachable!()
    }

    // Gives the turn back, with this answer of a call and its stamp.
    fn give_back<W: Said, A>(&self, seat: &mut Seat<S, Turn<S>>, note: &A, stamp: u64)
        requires table { seat.old.table_id ≡ self.now.table.shared.table_id }
        requires may { (a : S) × (seat.old.me.1 ≡ (0, a) ∷ []) × MayGive S.Law.Rule S.Single (terms_of self.now) seat.old.me.0 W.view a }
        requires stamp { stamp ≡ length W.view.observed }
        ensures table { seat.new.table_id ≡ seat.old.table_id }
        ensures rests { seat.new.me ≡ (resting W.view seat.old.me.0, []) }
    {
        let _ = note;
        self.table.shared.store::<GiveBack<W>>(seat, 0, 2 * stamp);
    }

    // Gives the turn back, where the call made no entry.
    pub(crate) fn let_go(&self, pass: &mut TurnPass<S>, count: u64)
        requires table { pass.old.seat.table_id ≡ self.now.table.shared.table_id }
        requires turn { IsInTurn S.Law.Rule S.Single (terms_of self.now) pass.old.seat.me.0 }
        requires archive { HasArchive S.Law.Rule S.Single self.now pass.old.seat.me.0.view.observed pass.old.seat }
        requires count { count ≡ length pass.old.seat.me.0.view.observed }
        ensures pass { IsPassOf self.now pass.new }
        ensures view { view_of pass.new ≡ view_of pass.old }
    {
        self.give_back::<Brand, ()>(&mut pass.seat, &(), count);
        pass.word = 2 * count;
    }

    // Gives the turn back, with the entry of the call.
    pub(crate) fn answer<A: Answer>(&self, pass: &mut TurnPass<S>, note: &A, stamp: u64)
        requires table { pass.old.seat.table_id ≡ self.now.table.shared.table_id }
        requires turn { IsInTurn S.Law.Rule S.Single (terms_of self.now) pass.old.seat.me.0 }
        requires due { IsDue S.Law.Rule S.Single self.now pass.old.seat (A.call note.now) (A.reply note.now) stamp }
        ensures pass { IsPassOf self.now pass.new }
        ensures answers { Answers (S.Law.reply (S.number (terms_of self.now).single.value)) (terms_of self.now).passes (view_of pass.old) (A.call note.now) (A.reply note.now) stamp (view_of pass.new) }
    {
        self.give_back::<Brand, A>(&mut pass.seat, note, stamp);
        pass.word = 2 * stamp;
    }
}
