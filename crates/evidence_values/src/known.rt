//! What is known of values once they are read.

ghost use Rattle.std.specs.Prelude.{◌<◌, ◌^◌, length};
ghost use Rattle.std.specs.List.{AllByRecursion};

/// A value of which something is known once it is read, whatever it is: as that a number is one of
/// its type.
pub trait Known {
    ghost known: { Self → Type 0 };

    fn read(&self)
        ensures { known self.now };
}

/// It is known of each item of a list, and that 64 bits count them.
#[tactic(auto, using(crate::proofs::Lists::one_more, crate::proofs::Lists::each_one))]
pub fn each<X: Known>(items: &[X])
    ensures known { AllByRecursion X.known items.now }
    ensures count { length items.now < 2 ^ 64 }
{
    let _count = items.len();
    for item in items {
        item.read();
    }
}
