// A line of a file, cut into its items.
ghost use Rattle.std.specs.Prelude.{◌≡◌, ◌+◌, ◌≤◌};
ghost use Rattle.lists.specs.Searching.{part};
ghost use Rattle.lines.specs.Line.{comma_at, LineIn, item_at, ItemAt};

/// Bytes of a file, from a position to a position. Not a `Range`, which is not `Copy`.
#[derive(Clone, Copy, Debug, PartialEq, Eq)]
pub struct Span {
    pub from: usize,
    pub to: usize,
}

/// A line of a file by the places of its commas, from its beginning. Item number 0 is the record's number.
#[derive(Clone, Copy)]
pub struct Items<'a> {
    pub file: &'a [u8],
    pub at: usize,
    pub end: usize,
    pub stops: &'a [usize; 16],
    pub commas: usize,
    pub ghost line: { LineIn file.now at end stops.now commas },
}

impl<'a> Items<'a> {
    // Where item number j ends: at its comma, or with the line.
    fn end_of(&self, j: usize) -> usize
        requires { j ≤ 15 }
        ensures { result ≡ self.now.at + comma_at (part self.now.file.now self.now.at self.now.end) j }
    {
        if j < self.commas {
            self.at + self.stops[j]
        } else {
            self.end
        }
    }

    /// Where item number j stands in the file; nowhere, at the line's end, where there is none.
    pub fn range(&self, j: usize) -> Span
        requires { j ≤ 15 }
        ensures { ItemAt self.now.file.now self.now.at self.now.end self.now.commas j result }
    {
        if self.commas < j {
            return Span {
                from: self.end,
                to: self.end,
            };
        }
        let end = self.end_of(j);
        if j == 0 {
            return Span {
                from: self.at,
                to: end,
            };
        }
        Span {
            from: self.end_of(j - 1) + 1,
            to: end,
        }
    }

    /// Its bytes.
    pub fn item(&self, j: usize) -> &'a [u8]
        requires { j ≤ 15 }
        ensures { result.now ≡ item_at self.now.file.now self.now.at self.now.end j }
    {
        let Span { from, to } = self.range(j);
        &self.file[from..to]
    }
}
