//! Writers that rest until something waits for their links. Which links these are is kept, so that
//! no call wakes them in vain.

/// How many writers may rest so: as many as a node keeps links.
const PLACES: usize = 64;

/// The links whose writers rest.
#[derive(Clone, Copy, Debug)]
pub(crate) struct Resting {
    links: [Option<u32>; PLACES],
    count: usize,
}

impl Resting {
    pub(crate) const NOBODY: Resting = Resting {
        links: [None; PLACES],
        count: 0,
    };

    pub(crate) fn is_empty(&self) -> bool {
        self.count == 0
    }

    /// The links whose writers rest, each at its place.
    pub(crate) fn links(&self) -> &[Option<u32>; PLACES] {
        &self.links
    }

    /// A place for the writer of this link, where one is free.
    pub(crate) fn enter(&mut self, link: u32) -> Option<usize> {
        let place = self.links.iter().position(|resting| resting.is_none())?;
        self.links[place] = Some(link);
        self.count = self.count.saturating_add(1);
        Some(place)
    }

    /// The writer at this place, if there is one, rests no more.
    pub(crate) fn leave(&mut self, place: Option<usize>) {
        if let Some(place) = place
            && place < PLACES
        {
            self.links[place] = None;
            self.count = self.count.saturating_sub(1);
        }
    }
}
