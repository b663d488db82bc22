// The table directory of an OpenType font, which begins at `start` in its file, and big-endian fields.
ghost use Rattle.std.specs.Prelude.{◌≡◌, true, false, ◌+◌, ◌*◌, ◌^◌, ◌≤◌, ◌<◌, length, MatchOption};
ghost use Rattle.font.specs.Tables.{u16_at, u32_at, swap_bytes, starts_as_font, directory_fits, record_count, first_record, table_of_record, find_table, table_data, handed_table, is_damaged};

// What lookup answers of a tag: no record has it; the first record with it reaches past the file or is too short; or where its
// table lies.
#[derive(Clone, Copy)]
pub(crate) enum Table {
    Absent,
    Damaged,
    Found { offset: usize, length: usize },
}

// Fields have a function for each size: one over the size would have each call name it.

// The 16-bit field at a position where it lies whole in the bytes.
pub(crate) fn u16_in(s: &[u8], at: usize) -> u16
    requires { at + 2 ≤ length s.now }
    ensures { result ≡ u16_at s.now at }
{
    u16::from_be_bytes([s[at], s[at + 1]])
}

// The 32-bit field at a position where it lies whole in the bytes.
pub(crate) fn u32_in(s: &[u8], at: usize) -> u32
    requires { at + 4 ≤ length s.now }
    ensures { result ≡ u32_at s.now at }
{
    u32::from_be_bytes([s[at], s[at + 1], s[at + 2], s[at + 3]])
}

// The 32-bit field at a position, with its bytes in the opposite order.
fn swapped_u32_in(s: &[u8], at: usize) -> u32
    requires { at + 4 ≤ length s.now }
    ensures { (result ≡ swap_bytes (u32_at s.now at)) × (u32_at s.now at < 2 ^ 32) }
{
    u32::from_le_bytes([s[at], s[at + 1], s[at + 2], s[at + 3]])
}

// The 16-bit field at a position, or 0 where it does not lie whole in the bytes: it asks nothing of the position.
pub fn u16_at(s: &[u8], at: usize) -> u16
    ensures { result ≡ u16_at s.now at }
{
    if s.len() < 2 || s.len() - 2 < at {
        0
    } else {
        u16_in(s, at)
    }
}

// The 32-bit field at a position, or 0 where it does not lie whole in the bytes.
pub fn u32_at(s: &[u8], at: usize) -> u32
    ensures { result ≡ u32_at s.now at }
{
    if s.len() < 4 || s.len() - 4 < at {
        0
    } else {
        u32_in(s, at)
    }
}

#[tactic(auto, unfolding(crate::specs::Tables::starts_as_font))]
fn starts_as_font(version: u32) -> bool
    ensures { result ≡ starts_as_font version }
{
    version == 0x0001_0000 || version == 0x4F54_544F || version == 0x7472_7565
}

// A font's directory, which begins at `start` and lies in the file.
#[derive(Clone, Copy)]
pub(crate) struct Directory<'a> {
    pub(crate) file: &'a [u8],
    pub(crate) start: usize,
    ghost fits: { directory_fits file.now start ≡ true },
}

impl<'a> Directory<'a> {
    // The directory at `start`, where the number `version` stands; none where no font starts or its directory does not lie in the
    // file.
    #[tactic(auto, using(crate::proofs::Lookup::fits, crate::proofs::Lookup::past_file, crate::proofs::Lookup::other_start, crate::proofs::Lookup::records_past))]
    pub(crate) fn of_version(file: &'a [u8], start: usize, version: u32) -> Option<Self>
        requires { version ≡ u32_at file.now start }
        ensures { MatchOption result (directory_fits file.now start ≡ false) (λ d. (d.file.now ≡ file.now) × (d.start ≡ start)) }
    {
        if file.len() < 12 || file.len() - 12 < start || !starts_as_font(version) {
            return None;
        }
        let count = u16_in(file, start + 4) as usize;
        if count <= (file.len() - 12 - start) / 16 {
            Some(Directory { file, start })
        } else {
            None
        }
    }

    // As `of_version`, where the version is yet to be read.
    pub(crate) fn at(file: &'a [u8], start: usize) -> Option<Self>
        ensures { MatchOption result (directory_fits file.now start ≡ false) (λ d. (d.file.now ≡ file.now) × (d.start ≡ start)) }
    {
        Directory::of_version(file, start, u32_at(file, start))
    }

    // The number of the first record with the tag.
    // Tags are compared in the order of the machine's bytes: the loop then turns none.
    #[tactic(auto, using(crate::proofs::Lookup::records_inside), unfolding(crate::specs::Tables::record_count))]
    fn first_record(self, tag: u32) -> Option<usize>
        ensures { let count = record_count self.entry.file.now self.entry.start in MatchOption result (first_record self.entry.file.now self.entry.start tag ≡ count) (λ i. (i ≡ first_record self.entry.file.now self.entry.start tag) × (i < count)) }
    {
        let count = u16_in(self.file, self.start + 4) as usize;
        let wanted = tag.swap_bytes();
        for i in 0..count {
            if swapped_u32_in(self.file, self.start + 12 + 16 * i) == wanted {
                return Some(i);
            }
        }
        None
    }

    // The table of a record: found if the table lies in the file and has at least `least` bytes.
    #[tactic(auto, using(crate::proofs::Lookup::records_inside), unfolding(crate::specs::Tables::record_count, crate::specs::Tables::table_of_record, crate::specs::Tables::record_offset, crate::specs::Tables::record_length))]
    fn table_of_record(self, i: usize, least: usize) -> Table
        requires { i < record_count self.file.now self.start }
        ensures { result ≡ table_of_record self.entry.file.now self.entry.start least i }
    {
        let offset = u32_in(self.file, self.start + 20 + 16 * i) as usize;
        let length = u32_in(self.file, self.start + 24 + 16 * i) as usize;
        if length < least || self.file.len() < offset + length {
            Table::Damaged
        } else {
            Table::Found { offset, length }
        }
    }

    // The first table with the tag, which needs at least `least` bytes.
    #[tactic(auto, unfolding(crate::specs::Tables::find_table))]
    pub(crate) fn find(self, tag: u32, least: usize) -> Table
        ensures { result ≡ find_table self.entry.file.now self.entry.start tag least }
    {
        match self.first_record(tag) {
            Some(i) => self.table_of_record(i, least),
            None => Table::Absent,
        }
    }

    // Whether the first table with the tag is damaged.
    #[tactic(auto, using(crate::proofs::Lookup::damage, crate::proofs::Lookup::no_damage))]
    pub(crate) fn is_damaged(self, tag: u32, least: usize) -> bool
        ensures { result ≡ is_damaged (handed_table self.entry.file.now self.entry.start tag least) }
    {
        matches!(self.find(tag, least), Table::Damaged)
    }

    // The found table as that part of the file and no other, and else the empty part.
    #[tactic(auto, using(crate::proofs::Lookup::within, crate::proofs::Lookup::found_part, crate::proofs::Lookup::none_found))]
    pub(crate) fn data_for_tag(self, tag: u32, least: usize) -> &'a [u8]
        ensures { result.now ≡ table_data self.entry.file.now self.entry.start tag least }
    {
        match self.find(tag, least) {
            Table::Found { offset, length } => &self.file[offset..offset + length],
            Table::Damaged | Table::Absent => &[],
        }
    }
}
