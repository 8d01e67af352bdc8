// The law of faults: a text has at most one, and none where it starts.
ghost use Rattle.std.specs.Prelude.{◌≡◌, ℕ, List, Option};
ghost use Rattle.vg_faults.specs.declared.fault.Fault.{Fault};
ghost use Rattle.vg_faults.specs.Starting.{StartsIn};
ghost use Rattle.vg_faults.specs.Faults.{HasFault};
ghost use Rattle.vg_faults.specs.Living.{HasLiveFault, IsFirmIn};
ghost use Rattle.vg_faults.specs.Fitting.{HasFitFault, IsFittingIn};
ghost use Rattle.vg_faults.specs.Room.{HasRoomFault, HasRoomIn};

/// The bytes of a text have at most one of the faults that are answered, and none where they are a text that starts. So each is answered exactly
/// where the bytes have it. The body is empty: its contract is a law of the definitions.
pub fn faults_exclude()
    ensures one { (bytes : List ℕ) (clock : ℕ) (a b : Fault) → HasFault a bytes clock → HasFault b bytes clock → a ≡ b }
    ensures none { (bytes : List ℕ) (clock : ℕ) (why : Fault) → StartsIn bytes clock → HasFault why bytes clock → ⊥ }
{}

/// The same, of the faults that are found once it is known what is live: the bytes have at most one, and none where they are a text that starts and whose
/// live methods make nothing.
pub fn live_faults_exclude()
    ensures one { (bytes : List ℕ) (clock : ℕ) (a b : Fault) → HasLiveFault a bytes clock → HasLiveFault b bytes clock → a ≡ b }
    ensures none { (bytes : List ℕ) (clock : ℕ) (why : Fault) → IsFirmIn bytes clock → HasLiveFault why bytes clock → ⊥ }
{}

/// The same, of the faults that are found once it is known how many bytes the columns take: the bytes have at most one, and none where all of them fit.
pub fn fit_faults_exclude()
    ensures one { (bytes : List ℕ) (clock : ℕ) (a b : Fault) → HasFitFault a bytes clock → HasFitFault b bytes clock → a ≡ b }
    ensures none { (bytes : List ℕ) (clock : ℕ) (why : Fault) → IsFittingIn bytes clock → HasFitFault why bytes clock → ⊥ }
{}

/// The same, of the faults that are found once it is known which stack is asked for: the bytes have at most one, and none where the stack has room.
pub fn room_faults_exclude()
    ensures one { (bytes : List ℕ) (asked : Option ℕ) (clock : ℕ) (a b : Fault)
        → HasRoomFault a bytes asked clock → HasRoomFault b bytes asked clock → a ≡ b }
    ensures none { (bytes : List ℕ) (asked : Option ℕ) (clock : ℕ) (why : Fault)
        → HasRoomIn bytes asked clock → HasRoomFault why bytes asked clock → ⊥ }
{}
