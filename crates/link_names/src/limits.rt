//! The limit on the number of components of a set.
ghost use Rattle.std.specs.Prelude.{map};
ghost use Rattle.schema_components.specs.Documents.{doc_of};
ghost use Rattle.link_names.specs.Order.{IsFirstOf};
ghost use Rattle.link_names.specs.Limits.{beyond_limit};

use crate::faults::{LinkWhy, LinkingFault};
use crate::places::Place;
use schema_components::RawDoc;

/// The greatest number of counted components of a set.
const MOST_COUNTED: usize = 10_000;

/// Returns a fault at the component after the first 10,000, in the order in which the documents are given and, in each, in the
/// order written. That is the order of files and places only if the documents are given by the numbers of their files.
pub fn first_beyond_limit(docs: &[RawDoc]) -> Option<LinkingFault>
    ensures { IsFirstOf (beyond_limit (map doc_of docs.now)) result }
{
    let mut left = MOST_COUNTED;
    'docs: for doc in docs {
        let counted = doc.counted();
        if left < counted.len() {
            let place = Place {
                file: doc.file(),
                at: counted[left],
            };
            return Some(LinkingFault {
                place,
                why: LinkWhy::Limit,
            });
        }
        left -= counted.len();
    }
    None
}
