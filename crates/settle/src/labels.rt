// Labels of fields: each field its own at first, then one for all fields that rules join.
ghost use Rattle.settle.specs.Labels.{label_of, Labelled, replaced};

use rules::marks::Seen;
use std::array::from_fn;

// A label for each field: fields under one label are joined by rules.
#[derive(Drop)]
pub(crate) struct Labels {
    pub of: [u8; 256],
}

impl Labels {
    // Each field has its own number as its label.
    pub(crate) fn apart() -> Labels
        ensures { Labelled result (λ f. f) }
    {
        Labels {
            of: from_fn(|f| f as u8),
        }
    }

    // Every label that was met becomes `one`.
    pub(crate) fn replace(&mut self, met: &Seen, one: u8)
        ensures { Labelled self.new (replaced met.now one (label_of self.old)) }
    {
        for label in &mut self.of {
            if met.has(*label) {
                *label = one;
            }
        }
    }
}
