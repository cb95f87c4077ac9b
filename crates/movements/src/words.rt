ghost use Rattle.std.specs.Prelude.{◌≡◌, ℕ, ◌<◌, List, Err};
ghost use Rattle.movements.specs.ByKey.{ByKey};
ghost use Rattle.movements.specs.Coding.{read};
ghost use Rattle.movements.specs.FirstFault.{Has};
ghost use Rattle.movements.specs.Join.{join};
ghost use Rattle.movements.specs.ReadInWords.{FirstIn};
ghost use Rattle.movements.specs.Sample.{Sample};
ghost use Rattle.movements.specs.declared.fault.PairFault.{PairFault};
ghost use Rattle.movements.specs.declared.kept.Movements.{Movements};
ghost use Rattle.tally.specs.declared.fault.Fault.{Fault};

/// The join in words: each key has the sum of its counts unless sixteen smaller keys are kept, and the rest has both rests and all other counts. Nothing else meets the words.
pub fn join_is_by_key()
    ensures holds { (x y : Movements) → ByKey x y (join x y) }
    ensures only { (x y z : Movements) → ByKey x y z → z ≡ join x y }
    ensures sample { Sample }
{}

/// Reading in words: the fault of bytes is that of the first pair that has one, and the pairs of a tally have none.
pub fn fault_is_the_first()
    ensures holds { (bytes : List ℕ) (f : Fault) → read bytes ≡ Err f → FirstIn bytes f }
    ensures only { (bytes : List ℕ) (f : Fault) → FirstIn bytes f → read bytes ≡ Err f }
    ensures tallies { (x : Movements) (i : ℕ) (f : PairFault) → i < 16 → Has x.pairs i f → ⊥ }
{}
