// Orders, and what calls give back.
ghost use Rattle.std.specs.Prelude.{◌≡◌};

use scheme::SessionFault;

// An order carries its number. Only announce makes one; it can neither be copied nor let go, so that it
// ends in a signature or a withdrawal.
pub struct Order {
    pub(crate) number: u32,
}

impl Order {
    pub fn number(&self) -> u32
        ensures { result ≡ self.now.number }
    {
        self.number
    }

    // Ends an order.
    pub(crate) fn end(self) {
        let Order { number: _ } = self;
    }
}

// What sign and withdraw give back where they refuse: the fault, and the order.
pub struct Returned {
    pub fault: SessionFault,
    pub order: Order,
}

// The signatures issued, how many may be issued, and whether an order stands: what `count` answers, no state.
#[derive(Clone, Copy)]
pub struct Count {
    pub issued: u32,
    pub capacity: u32,
    pub standing: bool,
}
