ghost use Rattle.std.specs.Prelude.{pos};
ghost use Rattle.residues.specs.declared.parity.Parity.TheVariants.{Open};
ghost use Rattle.residues.specs.Example.{Teeth, NoIndex, ParityIs};

// 1/2 is 64 teeth of 127, 1/127 is no number of them, and 7/3 is odd.
pub fn remainders_example()
    ensures { (Teeth (pos 1) (pos 2) 64) × ((NoIndex (pos 1) (pos 127)) × (ParityIs (pos 7) (pos 3) Open)) }
{}
