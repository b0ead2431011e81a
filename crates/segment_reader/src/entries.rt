//! The entries of a segment in turn, for programs: an iterator over a thin reader.
use crate::held::Reader;
use crate::survey::{EntryRead, verdict_of};

// okw has an iterator of this name too: its items are what it prints, a cut on the way among them.
/// The entries that a reader meets from its place on, each read whole. It goes on after an aborted entry, a cut and a wrong sum, and ends where the
/// reading does; the end of the valid bytes is then the reader's `valid_until`. An item, and the reader behind it, are what the reader's calls give, of any
/// state; where an opening led to the reader, the item is also what the reading finds next.
#[derive(Clone, Copy, Debug)]
pub struct Entries<'a> {
    pub reader: Reader<'a>,
}

impl<'a> Iterator for Entries<'a> {
    type Item = EntryRead;

    ghost use Rattle.std.specs.Prelude.{◌-◌, length};
    ghost use Rattle.std.specs.Iterator.{at_most};
    ghost use Rattle.segment_reader.specs.Entries.{EntriesNext};

    ghost next_gives = { EntriesNext };

    ghost remaining = { λ s. at_most (length s.reader.image.now - s.reader.state.place) };

    fn next(&mut self) -> Option<EntryRead> {
        // by names: the image is lent beside `&mut` of the state, and the place is the one before the entry is read
        let image = self.reader.image;
        let state = &mut self.reader.state;
        match state.read_entry(image) {
            Ok(Some(id)) => {
                let place = state.place;
                let verdict = verdict_of(state.read_all_chunks(image));
                Some(EntryRead { verdict, id, place })
            }
            Ok(None) => None,
            Err(_) => {
                // the place is the image's end: there the reading is over
                let _ = state.read_entry(image);
                None
            }
        }
    }
}
