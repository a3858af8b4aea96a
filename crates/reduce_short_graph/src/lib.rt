// The short graph (the quotient by the representation map): the images of the representatives' hops
// (transitions), in ascending order and each once.
// The theorems say, of any weakly confluent set of silent (tau) hops without cycles, that the short
// graph is admitted and that the map to it keeps branching bisimilarity. The code lists the hops
// that leave a representative, by the table of next states, and sorts their images by the map. It
// serves `reduce`.
// Uses `reduce_representatives` for the representatives and the map, `reduce_sorted_images` for the
// sorting.
#![tactic(auto)]

pub mod shorten; // shorten.rt: the short hops
