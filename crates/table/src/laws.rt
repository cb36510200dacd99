// The laws of tables, each a function whose contract is the law.
ghost use Rattle.table.specs.Sum.{DamageFound, BlankUnsound};
ghost use Rattle.table.specs.Stream.{PagesSound, StreamBack, SpanRead};
ghost use Rattle.table.specs.Layout.{StreamIsBlocks, EntriesAreBlocks};
ghost use Rattle.table.specs.Sizes.{BlocksHold, BlocksShort, BlockStands, TableFits};
ghost use Rattle.table.specs.Reading.{BlockReads, HeadReads, BlockFinds};
ghost use Rattle.table.specs.Search.{SearchNarrows, SearchEnds, HeadsRise};
ghost use Rattle.table.specs.Load.{SpansShort, LoadGoesOn};
ghost use Rattle.table.specs.Lookup.{LookupRight};
ghost use Rattle.table.specs.Cursor.{CursorRight};
ghost use Rattle.table.specs.Writing.{WriterBegins, WriterTakes, WriterPuts, WriterGives, WriterEnds};
ghost use Rattle.table.specs.Lies.{LiesElsewhere, EntryRead, BlockRead};

// Of two pages that differ only within eight bytes in a row, at most one has the right sum.
pub fn damage_found()
    ensures { DamageFound }
{}

// A page that was never written is not sound.
pub fn blank_unsound()
    ensures { BlankUnsound }
{}

// Pages that are put are pages, and sound.
pub fn pages_sound()
    ensures { PagesSound }
{}

// A stream comes back from its pages.
pub fn stream_back()
    ensures { StreamBack }
{}

// A span of a stream is read from the few pages that it lies on.
pub fn span_read()
    ensures { SpanRead }
{}

// What a writer writes are the blocks.
pub fn stream_is_blocks()
    ensures { StreamIsBlocks }
{}

// So are the positions.
pub fn entries_are_blocks()
    ensures { EntriesAreBlocks }
{}

// The blocks hold the versions, each at least one.
pub fn blocks_hold()
    ensures { BlocksHold }
{}

// No block is longer than 1,512 bytes.
pub fn blocks_short()
    ensures { BlocksShort }
{}

// A block stands in the stream where its entry says.
pub fn block_stands()
    ensures { BlockStands }
{}

// A table of weight w takes at most w / 512 and 3 pages.
pub fn table_fits()
    ensures { TableFits }
{}

// A block's bytes tell its bound and its first version.
pub fn block_reads()
    ensures { BlockReads }
{}

// Its first bytes tell its bound and its head's key.
pub fn head_reads()
    ensures { HeadReads }
{}

// What is found in a block is what is looked up in its versions.
pub fn block_finds()
    ensures { BlockFinds }
{}

// A look at the block in the middle leaves less to look at.
pub fn search_narrows()
    ensures { SearchNarrows }
{}

// The search ends at the one block that decides.
pub fn search_ends()
    ensures { SearchEnds }
{}

// At the beginning the writer owes the whole table.
pub fn writer_begins()
    ensures { WriterBegins }
{}

// Bytes go from the hand to the page.
pub fn writer_takes()
    ensures { WriterTakes }
{}

// A full page is the next page of its stream.
pub fn writer_puts()
    ensures { WriterPuts }
{}

// A version that is handed over is what was owed next.
pub fn writer_gives()
    ensures { WriterGives }
{}

// At the end what is on the pages being filled are the last pages.
pub fn writer_ends()
    ensures { WriterEnds }
{}

// A table lies where it lies, whatever happens to other pages.
pub fn lies_elsewhere()
    ensures { LiesElsewhere }
{}

// A block's entry is read from one page.
pub fn entry_read()
    ensures { EntryRead }
{}

// A block's bytes are read from the few pages that they lie on.
pub fn block_read()
    ensures { BlockRead }
{}

// A block is on at most four pages, a head on at most two.
pub fn spans_short()
    ensures { SpansShort }
{}

// Page after page a row's front is the payloads of the pages.
pub fn load_goes_on()
    ensures { LoadGoesOn }
{}

// From the back: heads before a key stand in front of the others.
pub fn heads_rise()
    ensures { HeadsRise }
{}

// A lookup that goes a page at a time finds what is looked up in the table's versions.
pub fn lookup_right()
    ensures { LookupRight }
{}

// A cursor that goes a page at a time walks over the table's versions in order, and waits for each page once.
pub fn cursor_right()
    ensures { CursorRight }
{}
