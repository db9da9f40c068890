//! The outside as the program sees it: a shelf of files and a sink of bytes, either of which may fail at any call.
ghost use Rattle.std.specs.Prelude.{◌≡◌, ◌≤◌, ◌<◌, ◌↔◌, ℕ, List, [], length, IsTrue, Option, IfOk, IfSome, OnOk, OnErr};
ghost use Rattle.std.specs.Io.{ReadsAtMost};
ghost use Rattle.std.specs.Io.KnownBytes.{ReadConsumes};
ghost use Rattle.rv_io.specs.Outside.{Told, Leaves, KeepsReading, KeepsOthers, HasCause, IsPicked, IsSpent, IsFile, TakesSome};
ghost use Rattle.rv_io.specs.Writing.{TakesIn};

/// A call of a shelf or a sink did not do its work. No bytes.
#[derive(Clone, Copy, Debug, PartialEq, Eq)]
pub struct Failed;

/// Memory ran out. No bytes.
#[derive(Clone, Copy, Debug, PartialEq, Eq)]
pub struct NoMemory;

/// A shelf of files: one file at a time is picked and then read from its first byte on. Files are put as a whole.
pub trait Shelf {
    /// What the shelf reports of itself, in contracts.
    ghost told: { Self → Told };

    /// Picks the file of this name. An absent file is a fault; after a fault, no file is picked.
    fn pick(&mut self, name: &str) -> Result<(), Failed>
        requires { IsTrue ((told self.old).may_pick name.now) }
        ensures picked { OnOk result (IsPicked (told self.old).files (told self.new).rest
            name.now) }
        ensures none { OnErr result (IsSpent (told self.old).files (told self.new).rest) }
        ensures leaves { Leaves (told self.old) (told self.new) }
        ensures cause { HasCause (told self.old).faults (told self.new).faults result }
        ensures kept { OnOk result ((told self.new).faults ≡ (told self.old).faults) };

    /// Reads the next bytes of the picked file into the front of `buf`, and answers how many: none only at the end, or
    /// if no file is picked. A call that fails reads none.
    fn read(&mut self, buf: &mut [u8]) -> Result<usize, Failed>
        requires { 0 < length buf.old }
        ensures within { ReadsAtMost result buf.new }
        ensures bytes { ReadConsumes (told self.old).rest (told self.new).rest result buf.new }
        ensures end { IfOk result (λ n. IfSome (told self.old).rest
            (λ left. (n ≡ 0) ↔ (left ≡ []))) }
        ensures leaves { Leaves (told self.old) (told self.new) }
        ensures cause { HasCause (told self.old).faults (told self.new).faults result }
        ensures kept { OnOk result ((told self.new).faults ≡ (told self.old).faults) };

    /// Makes the file of this name, whether it exists or not, hold exactly `bytes`. After a fault, nothing is known
    /// about that file. All other files stay, and so does what is left to read.
    fn put(&mut self, name: &str, bytes: &[u8]) -> Result<(), Failed>
        ensures file { OnOk result (IsFile (told self.new).files name.now bytes.now) }
        ensures others { KeepsOthers (told self.old).files (told self.new).files name.now }
        ensures reading { KeepsReading (told self.old) (told self.new) }
        ensures later { (told self.old).put_faults ≤ (told self.new).put_faults }
        ensures cause { HasCause (told self.old).put_faults (told self.new).put_faults result }
        ensures kept { OnOk result ((told self.new).put_faults ≡ (told self.old).put_faults) };
}

/// A sink that takes bytes one after another.
pub trait Sink {
    /// The bytes taken so far, if the sink reports them.
    ghost written: { Self → Option (List ℕ) };

    /// How many writes failed.
    ghost faults: { Self → ℕ };

    /// Takes bytes from the front of `bytes`, and answers how many, at least one. A call that fails takes none.
    fn write(&mut self, bytes: &[u8]) -> Result<usize, Failed>
        requires { 0 < length bytes.now }
        ensures some { TakesSome result bytes.now }
        ensures bytes { TakesIn (written self.old) (written self.new) result bytes.now }
        ensures later { faults self.old ≤ faults self.new }
        ensures cause { HasCause (faults self.old) (faults self.new) result }
        ensures kept { OnOk result (faults self.new ≡ faults self.old) };
}
