// The lent tables of a list and of a recorder, to read and to write.
ghost use Rattle.std.specs.Prelude.{◌≡◌};
ghost use Rattle.tables.specs.Loans.{recorder_tables_in, recorder_tables_mut_in};

// The seven tables of a list.
#[derive(Clone, Copy)]
pub struct Tables<'a> {
    pub checkpoints: &'a [u8],
    pub frames: &'a [u8],
    pub store: &'a [u8],
    pub parts: &'a [u8],
    pub malformed: &'a [u8],
    pub hints: &'a [u8],
    pub confirmed: &'a [u8],
}

// The four tables of a recorder.
#[derive(Clone, Copy)]
pub struct RecorderTables<'a> {
    pub checkpoints: &'a [u8],
    pub frames: &'a [u8],
    pub store: &'a [u8],
    pub parts: &'a [u8],
}

// The four tables of a recorder, to write.
#[derive(Drop)]
pub struct RecorderTablesMut<'a> {
    pub checkpoints: &'a mut [u8],
    pub frames: &'a mut [u8],
    pub store: &'a mut [u8],
    pub parts: &'a mut [u8],
}

impl<'a> RecorderTablesMut<'a> {
    // The same tables, only read.
    pub fn read(&self) -> RecorderTables<'_>
        ensures { recorder_tables_in result ≡ recorder_tables_mut_in self.now }
    {
        RecorderTables {
            checkpoints: &*self.checkpoints,
            frames: &*self.frames,
            store: &*self.store,
            parts: &*self.parts,
        }
    }
}
