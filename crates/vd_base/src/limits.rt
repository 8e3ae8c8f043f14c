//! The limits of the product. Each is the greatest number that is allowed.

ghost use Rattle.std.specs.Prelude.{◌≡◌};
ghost use Rattle.vd_base.specs.Limits.{LimitsFit, most_source_bytes, most_open_brackets, most_hosts, most_principals, most_statements, most_nesting, most_weights, most_cells, most_input_words, most_inputs_bytes, most_schedule_bytes, most_schedule_entries, most_certificate_bytes, most_certificate_shifts, most_search_budget, most_deal_bytes, most_deal_items, most_host_file_bytes, most_packet_words, most_open_blocks, most_registers};

/// Bytes of a source.
pub const SOURCE_BYTES: u32 = 65_536;

/// Brackets of all kinds that are open at once in a source.
pub const OPEN_BRACKETS: u32 = 64;

/// Hosts of a source, which has at least one.
pub const HOSTS: u32 = 4;

/// Principals of a source, which has at least one.
pub const PRINCIPALS: u32 = 6;

/// Statements of a let-normal program, with one more for each inlined call.
pub const STATEMENTS: u32 = 512;

/// Loops around one statement of a let-normal program.
pub const NESTING: u32 = 8;

/// The sum of the weights of all statements: how often each is executed.
pub const WEIGHTS: u32 = 65_536;

/// Cells of all arrays together.
pub const CELLS: u32 = 65_536;

/// Input words of one host.
pub const INPUT_WORDS: u32 = 65_536;

/// Bytes of an inputs file.
pub const INPUTS_BYTES: u32 = 4_194_304;

/// Bytes of a schedule file.
pub const SCHEDULE_BYTES: u32 = 16_777_216;

/// Entries of a schedule file.
pub const SCHEDULE_ENTRIES: u32 = 1_048_576;

/// Bytes of a certificate file.
pub const CERTIFICATE_BYTES: u32 = 16_777_216;

/// Cost shifts of a certificate.
pub const CERTIFICATE_SHIFTS: u32 = 131_072;

/// Prefixes that a search opens; also the budget of a search for which none is given.
pub const SEARCH_BUDGET: u32 = 200_000;

/// Bytes of a deal file.
pub const DEAL_BYTES: u32 = 335_544_320;

/// Items of one kind that a deal has for one peer, and own words of one host.
pub const DEAL_ITEMS: u32 = 1_048_576;

/// Bytes of a host program's file.
pub const HOST_FILE_BYTES: u32 = 67_108_864;

/// Words of a packet, which has at least one.
pub const PACKET_WORDS: u32 = 16;

/// Blocks of host code that are open at once.
pub const OPEN_BLOCKS: u32 = 512;

/// Registers of one host.
pub const REGISTERS: u32 = 2_097_152;

/// The limits of the code are those of the definitions.
pub fn limits_are_stated()
    ensures source_bytes { SOURCE_BYTES ≡ most_source_bytes }
    ensures open_brackets { OPEN_BRACKETS ≡ most_open_brackets }
    ensures hosts { HOSTS ≡ most_hosts }
    ensures principals { PRINCIPALS ≡ most_principals }
    ensures statements { STATEMENTS ≡ most_statements }
    ensures nesting { NESTING ≡ most_nesting }
    ensures weights { WEIGHTS ≡ most_weights }
    ensures cells { CELLS ≡ most_cells }
    ensures input_words { INPUT_WORDS ≡ most_input_words }
    ensures inputs_bytes { INPUTS_BYTES ≡ most_inputs_bytes }
    ensures schedule_bytes { SCHEDULE_BYTES ≡ most_schedule_bytes }
    ensures schedule_entries { SCHEDULE_ENTRIES ≡ most_schedule_entries }
    ensures certificate_bytes { CERTIFICATE_BYTES ≡ most_certificate_bytes }
    ensures certificate_shifts { CERTIFICATE_SHIFTS ≡ most_certificate_shifts }
    ensures search_budget { SEARCH_BUDGET ≡ most_search_budget }
    ensures deal_bytes { DEAL_BYTES ≡ most_deal_bytes }
    ensures deal_items { DEAL_ITEMS ≡ most_deal_items }
    ensures host_file_bytes { HOST_FILE_BYTES ≡ most_host_file_bytes }
    ensures packet_words { PACKET_WORDS ≡ most_packet_words }
    ensures open_blocks { OPEN_BLOCKS ≡ most_open_blocks }
    ensures registers { REGISTERS ≡ most_registers }
{}

/// Files that keep within the limits of what they hold keep within those of their bytes too. A schedule has room for four steps of
/// each host for each executed statement.
pub fn limits_fit()
    ensures { LimitsFit }
{}
