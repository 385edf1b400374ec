//! The trait of machines.
ghost use Rattle.std.specs.Prelude.{◌≡◌, ℕ, ◌<◌, ◌≤◌, ◌++◌, List, Contains, Option, Some, Bool, true, false, length, drop};
ghost use Rattle.gl_base.specs.declared.phase.Phase.{Phase};
ghost use Rattle.gl_world.specs.Ranks.{rank, IsGone, IsLeaving, IsNotClosing, IsNotGone};

use gl_base::Phase;

/// A machine that answers one call after another.
///
/// What it does is told by plain data, its worlds: `world_after`, `reply_of` and `bytes_of` say what a call
/// does, and `stands_for` says of which worlds a value of the machine is the image. Some calls name a place,
/// and a place goes through the phases Absent, Up, Leaving and Gone. A removal has two entries: the first
/// makes places Leaving, the last makes them Gone.
///
/// The design of this trait is this project's choice.
pub trait Machine: Send + Drop {
    /// A call with all its arguments.
    type Call: Copy + Send;

    /// What a call is answered.
    type Reply: Copy + Send;

    /// Memory that a call brings along. The machine takes it or leaves it there.
    type Gift;

    /// What a machine stands for, as plain data.
    ghost World: { Type 0 };

    /// The world of a new machine.
    ghost opening: { Self.World };

    /// The worlds that a machine stands for.
    ghost stands_for: { Self → Self.World → Type 0 };

    /// The worlds that the laws below speak of. The opening world is one, and each call leads to one again.
    ghost Sound: { Self.World → Type 0 };

    /// The world after an actor's call.
    ghost world_after: { Self.World → ℕ → Self.Call → Self.World };

    /// The reply to an actor's call.
    ghost reply_of: { Self.World → ℕ → Self.Call → Self.Reply };

    /// What an actor's call writes, from the buffer's start.
    ghost bytes_of: { Self.World → ℕ → Self.Call → List ℕ };

    /// The calls whose arguments are in range.
    ghost FitsCall: { Self.Call → Type 0 };

    /// The calls that may be made with this gift and this buffer.
    ghost Fits: { Self.Call → Self.Gift → List ℕ → Type 0 };

    /// What becomes of the gift by a call with this reply: what it was, and what is left of it.
    ghost Leaves: { Self.Call → Self.Reply → Self.Gift → Self.Gift → Type 0 };

    /// Whether the actor owes a second entry after this call with this reply.
    ghost begins: { Self.Call → Self.Reply → Bool };

    /// Whether the call is such a second entry.
    ghost ends: { Self.Call → Bool };

    /// The place whose guard the call needs.
    ghost place_of: { Self.Call → Option ℕ };

    /// The place at whose closed guard the call was refused, for the calls that record just that.
    ghost refused_at: { Self.Call → Option ℕ };

    /// The phase of a place.
    ghost phase_of: { Self.World → ℕ → Phase };

    /// The actor that removes a place.
    ghost remover_of: { Self.World → ℕ → Option ℕ };

    /// Whether the call is a removal's last entry.
    ghost is_last_removal: { Self.Call → Bool };

    /// The places whose removal begins with this call, its reply and what it wrote: none for any call but
    /// a removal's first one that was not refused.
    ghost begun_places: { Self.Call → Self.Reply → List ℕ → List ℕ };

    /// For a removal's first call, the call that ends this removal.
    ghost last_call: { Self.Call → Self.Call };

    /// For a place that is Leaving, the call that ends its removal.
    ghost awaited_call: { Self.World → ℕ → Self.Call };

    /// Makes a call for an actor. What it writes stands at the start of `out`; behind that `out` stays.
    fn step(
        &mut self,
        actor: u8,
        call: &Self::Call,
        gift: &mut Self::Gift,
        out: &mut [u8],
    ) -> Self::Reply
        requires { Self.Fits call.now gift.old out.old }
        ensures world { (w : Self.World) → Self.stands_for self.old w
            → Self.stands_for self.new (Self.world_after w actor call.now) }
        ensures reply { (w : Self.World) → Self.stands_for self.old w → result ≡ Self.reply_of w actor call.now }
        ensures bytes { (w : Self.World) → Self.stands_for self.old w
            → let bytes = Self.bytes_of w actor call.now in out.new ≡ bytes ++ drop (length bytes) out.old }
        ensures gift { Self.Leaves call.now result gift.old gift.new };

    /// The phase of a place.
    fn phase(&self, place: u8) -> Phase
        ensures { (w : Self.World) → Self.stands_for self.now w → result ≡ Self.phase_of w place };

    /// The place whose guard the call needs.
    fn place_of(call: &Self::Call) -> Option<u8>
        ensures { result ≡ Self.place_of call.now };

    /// Whether the actor owes a second entry after this call with this reply.
    fn begins(call: &Self::Call, reply: &Self::Reply) -> bool
        ensures { result ≡ Self.begins call.now reply.now };

    /// Whether the call is such a second entry.
    fn ends(call: &Self::Call) -> bool
        ensures { result ≡ Self.ends call.now };

    /// What fits with a gift and a buffer fits.
    ghost fits_calls: { (call : Self.Call) (gift : Self.Gift) (out : List ℕ) → Self.Fits call gift out → Self.FitsCall call };

    /// No call that ends begins.
    ghost ends_not_begins: { (call : Self.Call) (answer : Self.Reply) → Self.ends call ≡ true → Self.begins call answer ≡ false };

    /// The opening world is sound.
    ghost opens_sound: { Self.Sound Self.opening };

    /// A call keeps a world sound.
    ghost keeps_sound: { (w : Self.World) (by : ℕ) (call : Self.Call) → Self.Sound w → Self.FitsCall call
        → Self.Sound (Self.world_after w by call) };

    /// In the opening world no place is Leaving or Gone.
    ghost opens_places: { (p : ℕ) → IsNotClosing (rank (Self.phase_of Self.opening p)) };

    /// Phases only go forward.
    ghost goes_forward: { (w : Self.World) (by : ℕ) (call : Self.Call) (p : ℕ) → Self.Sound w → Self.FitsCall call
        → rank (Self.phase_of w p) ≤ rank (Self.phase_of (Self.world_after w by call) p) };

    /// A place becomes Gone from Leaving alone, by a removal's last entry of the actor that removes it.
    ghost ends_place: { (w : Self.World) (by : ℕ) (call : Self.Call) (p : ℕ) → Self.Sound w → Self.FitsCall call
        → IsNotGone (rank (Self.phase_of w p)) → IsGone (rank (Self.phase_of (Self.world_after w by call) p))
        → IsLeaving (rank (Self.phase_of w p)) × (Self.is_last_removal call ≡ true) × (Self.remover_of w p ≡ Some by) };

    /// A place becomes Leaving by an entry that names it, and who made this entry removes it.
    ghost begins_place: { (w : Self.World) (by : ℕ) (call : Self.Call) (p : ℕ) → Self.Sound w → Self.FitsCall call
        → IsNotClosing (rank (Self.phase_of w p)) → IsLeaving (rank (Self.phase_of (Self.world_after w by call) p))
        → (Self.remover_of (Self.world_after w by call) p ≡ Some by)
        × Contains (Self.begun_places call (Self.reply_of w by call) (Self.bytes_of w by call)) p };

    /// Each place that a removal's first entry names is Leaving after it, and who made the entry removes it.
    ghost begins_removal: { (w : Self.World) (by : ℕ) (call : Self.Call) (p : ℕ) → Self.Sound w → Self.FitsCall call
        → Contains (Self.begun_places call (Self.reply_of w by call) (Self.bytes_of w by call)) p
        → (IsLeaving (rank (Self.phase_of (Self.world_after w by call) p)))
        × (Self.remover_of (Self.world_after w by call) p ≡ Some by)
        × (Self.awaited_call (Self.world_after w by call) p ≡ Self.last_call call) };

    /// While a place is Leaving, it has one remover, and one call ends its removal.
    ghost removal_stays: { (w : Self.World) (by : ℕ) (call : Self.Call) (p : ℕ) → Self.Sound w → Self.FitsCall call
        → IsLeaving (rank (Self.phase_of w p)) → IsLeaving (rank (Self.phase_of (Self.world_after w by call) p))
        → (Self.remover_of (Self.world_after w by call) p ≡ Self.remover_of w p)
        × (Self.awaited_call (Self.world_after w by call) p ≡ Self.awaited_call w p) };

    /// That call of the remover makes the place Gone.
    ghost ends_removal: { (w : Self.World) (by : ℕ) (call : Self.Call) (p : ℕ) → Self.Sound w → Self.FitsCall call
        → IsLeaving (rank (Self.phase_of w p)) → Self.remover_of w p ≡ Some by → Self.awaited_call w p ≡ call
        → IsGone (rank (Self.phase_of (Self.world_after w by call) p)) };
}
