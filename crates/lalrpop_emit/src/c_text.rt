//! The parts of a C lexer that are the same for all rules.

/// What follows the prefix and a colon in the first line, and the rest of the head.
pub(crate) const HEAD: &str =
    " a lexer in C, made from rules. The tables are those of the rules; the code after them is the same for all rules. */
#include <stddef.h>
#include <stdint.h>
#include <string.h>
#ifdef __SSE2__
#include <emmintrin.h>
#endif

";

/// The type of a table, which stands before the number of modes, with `$` where the prefix goes.
pub(crate) const TABLE: &str = "
/* The table of a mode: the classes of characters, by pages of 128, each of which has a block of classes. */
typedef struct {
    const uint8_t *blocks;
    const uint16_t *pages;
    size_t last_page;
} $_table;

/* How many modes there are. */
";

/// The type of a table that runs ahead, which stands between that of its cells and the tables. What only the functions need isn't
/// there for a file that defines `$_header`.
pub(crate) const AHEAD: &str = "#ifndef $_header

/* The table of a mode that runs ahead: it reads each byte, on past the ends of tokens. Its cells lead from a row by a column to
   a row; after those of a row stands the rule of the token that ends there. A row waits long if a token is open in it that may not
   end for 16 characters more. Those rows come right after the first one. */
typedef struct {
    const $_ahead_cell *cells;
    size_t start;
    size_t width;
    size_t ends;     /* from this row on a token ended before the last byte */
    size_t waiting;  /* how many rows wait long */
    size_t before;   /* how many do in the tables of the modes before */
} $_ahead;
";

/// The code after the tables, with `$` where the prefix goes. `driver.rt`, `longest_match.rt`, `ahead_columns.rt`, `ahead_rows.rt`,
/// `flag_ends.rt` and `ahead_driver.rt` have the same functions in Rattle, line by line: change both or none.
pub(crate) const DRIVER: &str = "
#endif
/* What stands before the functions for users. With `#define $_open static inline` each file that includes this one has functions
   of its own. With `#define $_header` a file has what is declared here, and the functions of the one file that is without it. */
#ifndef $_open
#define $_open
#endif
#ifdef __cplusplus
extern \"C\" {
#endif

enum {
    $_run_size = 32,    /* how many bytes are looked at together: where they are ASCII, each is its own column */
    $_walks = 6,        /* how many walks are done at once */
    $_least = 384,      /* the least bytes of a block: a word for each walk. Each block has a multiple of them */
    $_most = 6144,      /* no block has more bytes than this */
    $_no_rule = 65535   /* no rule has this number */
};

/* A block of the text that a table has run through, ahead of the tokens that are cut in it. */
typedef struct {
    size_t base;                 /* where it begins in the text */
    size_t length;               /* how many bytes it has; 0 if there is none */
    uint16_t mode;               /* by whose table */
    size_t since;                /* where in the text the mode on top came there */
    size_t word;                 /* the word of ends that is looked at; after the last one if none is */
    uint64_t bits;               /* what is left of it: the ends after the place where the next token begins */
    $_ahead_cell rows[$_most];   /* the row after each byte */
    uint64_t ends[$_most / 64];  /* a bit for each byte: whether a token ends before it */
} $_run;

typedef struct {
    const unsigned char *text;
    size_t length;
    size_t at;
    uint16_t mode;         /* the mode on top */
    uint16_t below[1024];  /* the modes below it */
    size_t depth;          /* how many they are */
    uint64_t *memo;        /* a part for each mode, in which a bit says that no match comes */
    size_t memo_size;      /* in words; 0 if there is none */
    $_run run;
} $_lexer;

typedef struct {
    int kind;       /* of the rule, or $_fault */
    uint32_t rule;  /* its index; 0 in a fault */
    size_t start;   /* in bytes */
    size_t length;  /* in bytes */
} $_piece;

/* A place in a text. The beginning is {0, 1, 1}. */
typedef struct {
    size_t at;      /* in bytes */
    size_t line;    /* from 1 on; a line feed ends its line */
    size_t column;  /* from 1 on; a character is a column */
} $_position;

$_open $_lexer $_begin(const char *text, size_t length);
$_open size_t $_memo_size(size_t length);
$_open $_lexer $_begin_linear(const char *text, size_t length, uint64_t *memo, size_t size);
$_open int $_next($_lexer *lexer, $_piece *piece);
$_open void $_move_on($_position *position, const char *text, size_t length, size_t to);
$_open int $_skips(uint32_t rule);
$_open const char *$_name(int kind);

#ifdef __cplusplus
}
#endif
#ifndef $_header
#ifdef __GNUC__
#define $_inline static inline __attribute__((always_inline))
#define $_apart static __attribute__((noinline))
#else
#define $_inline static inline
#define $_apart static
#endif

/* A memo of one mode. It has a bit for each row that waits long and each 64 bytes of the text: whether no match comes if a walk
   passes there in this row. That is so wherever the walk began. */
typedef struct {
    uint64_t *words;
    size_t count;
} $_memo;

/* A walk along a text: the row that it has reached, and the place. */
typedef struct {
    size_t row;
    size_t at;
} $_walker;

/* How far a walk went. */
typedef struct {
    $_walker last;  /* where the last match ends, or the start if there is none */
    size_t end;     /* up to where it went on in vain */
} $_reading;

/* The product, or the greatest size if that is less. */
$_inline size_t $_product(size_t a, size_t b) {
    return b > 0 && a > (size_t)-1 / b ? (size_t)-1 : a * b;
}

/* Whether the byte at the place is one that follows in a character. */
$_inline int $_follows(const unsigned char *text, size_t length, size_t at) {
    return at < length && text[at] >= 0x80 && text[at] < 0xC0;
}

/* The size, and the code; 0 if the code isn't a character's, or a shorter form would do. */
$_inline size_t $_sized_character(size_t size, uint32_t least, uint32_t code, uint32_t *character) {
    if (code < least || code >= 0x110000 || (code >= 0xD800 && code < 0xE000)) {
        return 0;
    }
    *character = code;
    return size;
}

/* How many bytes the character at the place has, and its code; 0 if the bytes there aren't a character (RFC 3629). */
$_inline size_t $_read(const unsigned char *text, size_t length, size_t at, uint32_t *code) {
    uint32_t first = text[at];
    uint32_t second;
    uint32_t third;
    uint32_t fourth;
    if (first < 0x80) {
        return $_sized_character(1, 0, first, code);
    }
    if (first < 0xC0 || !$_follows(text, length, at + 1)) {
        return 0;
    }
    second = text[at + 1] - 0x80u;
    if (first < 0xE0) {
        return $_sized_character(2, 0x80, (first - 0xC0) * 64 + second, code);
    }
    if (!$_follows(text, length, at + 2)) {
        return 0;
    }
    third = text[at + 2] - 0x80u;
    if (first < 0xF0) {
        return $_sized_character(3, 0x800, ((first - 0xE0) * 64 + second) * 64 + third, code);
    }
    if (first >= 0xF8 || !$_follows(text, length, at + 3)) {
        return 0;
    }
    fourth = text[at + 3] - 0x80u;
    return $_sized_character(4, 0x10000, (((first - 0xF0) * 64 + second) * 64 + third) * 64 + fourth, code);
}

/* The block of the page with this number. Pages after the last one have its block. */
$_inline size_t $_block(const $_table *table, size_t page) {
    return table->pages[page < table->last_page ? page : table->last_page];
}

/* The class of a character. ASCII is the first block. */
$_inline size_t $_class(const $_table *table, uint32_t code) {
    if (code < 128) {
        return table->blocks[code];
    }
    return table->blocks[$_block(table, code / 128) * 128 + code % 128];
}

/* The column of the first byte of a character. */
$_inline size_t $_column_of(const $_table *table, uint32_t code) {
    if (code < 128) {
        return code;
    }
    return 128 + $_class(table, code);
}

/* The column of the character at the place, and how many bytes it has; 0 if the bytes there aren't a character. Most are ASCII,
   so that is looked at first. */
$_inline size_t $_column_at(const $_table *table, const unsigned char *text, size_t length, size_t at, size_t *column) {
    uint32_t code = 0;
    size_t size;
    if (text[at] < 128) {
        *column = text[at];
        return 1;
    }
    size = $_read(text, length, at, &code);
    if (size > 0) {
        *column = $_column_of(table, code);
    }
    return size;
}

/* Whether a token is open in the row: it is neither that in which none is, nor that of an end. */
$_inline int $_is_open(const $_ahead *ahead, size_t row) {
    return row > 0 && row < ahead->ends;
}

/* The walk after one more character, and 1; 0 if there is none, or it leads to a row in which the token isn't open. */
$_inline int $_walked(const $_ahead *ahead, const $_table *table, const unsigned char *text, size_t length, $_walker walk,
    $_walker *next) {
    size_t column = 0;
    size_t size;
    if (walk.at >= length) {
        return 0;
    }
    size = $_column_at(table, text, length, walk.at, &column);
    if (size == 0) {
        return 0;
    }
    next->row = ahead->cells[walk.row + column];
    if (!$_is_open(ahead, next->row)) {
        return 0;
    }
    next->at = walk.at + size;
    return 1;
}

/* The rule of the token that ends in the row; $_no_rule if none does. */
$_inline uint32_t $_rule_of(const $_ahead *ahead, size_t row) {
    return (uint32_t)ahead->cells[row + ahead->width];
}

/* How many words of a memo each row has for a text of this size: a bit for each 64 bytes. */
$_inline size_t $_row_words(size_t size) {
    return size < 64 ? 0 : size / 4096 + 1;
}

/* How many words this many rows have. */
$_inline size_t $_memo_words(size_t rows, size_t size) {
    return $_product(rows, $_row_words(size));
}

/* The word of the memo in which the walk's bit is; `words`, which is after the last one, if the memo has none. */
$_inline size_t $_word_of(const $_ahead *ahead, size_t size, $_walker walk, size_t words) {
    size_t row_words = $_row_words(size);
    size_t number = walk.row / (ahead->width + 1) - 1;
    if (number >= words / row_words) {
        return words;
    }
    return number * row_words + walk.at / 4096;
}

/* Whether it is noted that no match comes. */
$_inline int $_is_noted(const $_ahead *ahead, size_t size, $_walker walk, $_memo memo) {
    size_t word = $_word_of(ahead, size, walk, memo.count);
    return word < memo.count && (memo.words[word] >> (walk.at / 64 % 64)) % 2 == 1;
}

/* Whether the step from the walk passes a multiple of 64: comes to it, or beyond it. This is asked at each character, and was
   measured to be quicker than a comparison of quotients. */
$_inline int $_passes($_walker walk, $_walker next) {
    return next.at % 64 < next.at - walk.at;
}

/* Notes that no match comes. Where the memo has room, that sets one bit, and no other. */
$_inline void $_note(const $_ahead *ahead, size_t size, $_walker walk, $_memo memo) {
    size_t word = $_word_of(ahead, size, walk, memo.count);
    if (word < memo.count) {
        memo.words[word] |= (uint64_t)1 << (walk.at / 64 % 64);
    }
}

/* Walks up to the end again, on which no match comes, and notes it. Where no bit was in the way, each multiple of 64 that it
   passes costs a new one, but for the last. */
static void $_note_walk(const $_ahead *ahead, const $_table *table, const unsigned char *text, size_t length, $_walker from,
    size_t end, $_memo memo) {
    $_walker walk = from;
    $_walker next;
    while (walk.at < end) {
        if (!$_walked(ahead, table, text, length, walk, &next)) {
            return;
        }
        if ($_passes(walk, next)) {
            $_note(ahead, length, next, memo);
        }
        walk = next;
    }
}

/* Where the last match ends: there, if one does, or else where it did before. */
$_inline $_walker $_last_of(const $_ahead *ahead, $_walker last, $_walker there) {
    if ($_rule_of(ahead, there.row) != $_no_rule) {
        return there;
    }
    return last;
}

/* Reads on from the start until no match comes. */
$_inline $_reading $_read_on(const $_ahead *ahead, const $_table *table, const unsigned char *text, size_t length, size_t start,
    $_memo memo) {
    $_reading reading;
    $_walker walk;
    $_walker next;
    walk.row = ahead->start;
    walk.at = start;
    reading.last = walk;
    while ($_walked(ahead, table, text, length, walk, &next)) {
        reading.last = $_last_of(ahead, reading.last, next);
        if ($_passes(walk, next) && $_is_noted(ahead, length, next, memo)) {
            reading.end = next.at;
            return reading;
        }
        walk = next;
    }
    reading.end = walk.at;
    return reading;
}

/* Reads on from the start until no match comes, and notes where that was in vain. Bits that are new pay for what was read in
   vain, 64 bytes each, all but the last 128. */
$_inline $_reading $_read_and_note(const $_ahead *ahead, const $_table *table, const unsigned char *text, size_t length,
    size_t start, $_memo memo) {
    $_reading reading = $_read_on(ahead, table, text, length, start, memo);
    if (memo.count > 0 && reading.last.at / 64 < reading.end / 64) {
        $_note_walk(ahead, table, text, length, reading.last, reading.end, memo);
    }
    return reading;
}

/* Where the longest match from the place on ends, and its rule; the place itself if nothing matches there. */
static size_t $_longest(const $_ahead *ahead, const $_table *table, const unsigned char *text, size_t length, size_t start,
    $_memo memo, uint32_t *rule) {
    $_reading reading = $_read_and_note(ahead, table, text, length, start, memo);
    *rule = $_rule_of(ahead, reading.last.row);
    return reading.last.at;
}

/* Where the fault at the place ends: before the next place where a rule matches, or with the text. */
static size_t $_fault_end(const $_ahead *ahead, const $_table *table, const unsigned char *text, size_t length, size_t start,
    $_memo memo) {
    size_t end = start + 1;
    while (end < length) {
        uint32_t rule = 0;
        if ($_longest(ahead, table, text, length, end, memo, &rule) > end) {
            return end;
        }
        end += 1;
    }
    return end;
}

/* Whether there is room for the modes that the actions from the place on put on top, where this many modes lie below. */
static int $_has_room(size_t place, size_t depth, size_t room) {
    while ($_actions[place] != 0) {
        uint32_t action = $_actions[place];
        if (action == 1) {
            depth -= depth > 0;
        } else if (action % 2 == 1) {
            if (depth >= room) {
                return 0;
            }
            depth += 1;
        }
        place += 1;
    }
    return 1;
}

/* Does the actions from the place on: 1 takes away the mode on top, 2m + 2 puts the mode m in its place, 2m + 3 puts m
   on top. */
static void $_act(size_t place, $_lexer *lexer) {
    while ($_actions[place] != 0) {
        uint32_t action = $_actions[place];
        if (action != 1) {
            if (action % 2 == 1) {
                lexer->below[lexer->depth] = lexer->mode;
                lexer->depth += 1;
            }
            lexer->mode = (uint16_t)(action / 2 - 1);
        } else if (lexer->depth > 0) {
            lexer->depth -= 1;
            lexer->mode = lexer->below[lexer->depth];
        }
        place += 1;
    }
}

/* The column of the byte at the place, which may lie after the text. Of the character before it, `left` bytes are still to
   come, and then those of its own. */
$_inline uint16_t $_next_column(const $_ahead *ahead, const $_table *table, const unsigned char *text, size_t length, size_t at,
    size_t *left) {
    uint16_t within = (uint16_t)(ahead->width - 2);
    uint16_t bad = (uint16_t)(ahead->width - 1);
    uint32_t code = 0;
    size_t size;
    if (at >= length) {
        *left = 0;
        return bad;
    }
    if (*left > 0) {
        *left -= 1;
        return within;
    }
    size = $_read(text, length, at, &code);
    if (size == 0) {
        return bad;
    }
    *left = size - 1;
    return (uint16_t)$_column_of(table, code);
}

/* Whether the bytes of a run from the place on are all within the text, and ASCII. */
$_inline int $_is_ascii_run(const unsigned char *text, size_t length, size_t at) {
    uint64_t words[4];
    if (length < $_run_size || at > length - $_run_size) {
        return 0;
    }
    memcpy(words, text + at, $_run_size);
    return ((words[0] | words[1] | words[2] | words[3]) & 0x8080808080808080u) == 0;
}

/* The columns of the bytes of a run of ASCII: the bytes. */
$_inline void $_ascii_columns(const unsigned char *text, uint16_t *columns) {
#ifdef __SSE2__
    const __m128i none = _mm_setzero_si128();
    __m128i low = _mm_loadu_si128((const __m128i *)(const void *)text);
    __m128i high = _mm_loadu_si128((const __m128i *)(const void *)(text + 16));
    _mm_storeu_si128((__m128i *)(void *)columns, _mm_unpacklo_epi8(low, none));
    _mm_storeu_si128((__m128i *)(void *)(columns + 8), _mm_unpackhi_epi8(low, none));
    _mm_storeu_si128((__m128i *)(void *)(columns + 16), _mm_unpacklo_epi8(high, none));
    _mm_storeu_si128((__m128i *)(void *)(columns + 24), _mm_unpackhi_epi8(high, none));
#else
    size_t k;
    for (k = 0; k < $_run_size; k++) {
        columns[k] = text[k];
    }
#endif
}

/* The columns of the bytes of the text from a place on, and of what follows it, as many as `count`, which is a multiple of a
   run's. */
static void $_columns_of(const $_ahead *ahead, const $_table *table, const unsigned char *text, size_t length, size_t from,
    uint16_t *columns, size_t count) {
    size_t left = 0;
    size_t at;
    size_t k;
    for (at = 0; at < count; at += $_run_size) {
        if (left == 0 && $_is_ascii_run(text, length, from + at)) {
            $_ascii_columns(text + from + at, columns + at);
        } else {
            for (k = at; k < at + $_run_size; k++) {
                columns[k] = $_next_column(ahead, table, text, length, from + k, &left);
            }
        }
    }
}

/* The row that the column leads to from the row. */
$_inline $_ahead_cell $_step(const $_ahead *ahead, size_t row, uint16_t column) {
    return ahead->cells[row + column];
}

/* Walks along each part of the columns from the start on. The walks don't wait for each other, so they are quick; but the walks
   along later parts begin with what may be wrong. */
$_inline void $_walk_parts(const $_ahead *ahead, const uint16_t *columns, size_t count, $_ahead_cell *rows) {
    size_t part = count / $_walks;
    size_t row0 = ahead->start;
    size_t row1 = ahead->start;
    size_t row2 = ahead->start;
    size_t row3 = ahead->start;
    size_t row4 = ahead->start;
    size_t row5 = ahead->start;
    size_t k;
    for (k = 0; k < part; k++) {
        row0 = $_step(ahead, row0, columns[k]);
        rows[k] = ($_ahead_cell)row0;
        row1 = $_step(ahead, row1, columns[k + part]);
        rows[k + part] = ($_ahead_cell)row1;
        row2 = $_step(ahead, row2, columns[k + 2 * part]);
        rows[k + 2 * part] = ($_ahead_cell)row2;
        row3 = $_step(ahead, row3, columns[k + 3 * part]);
        rows[k + 3 * part] = ($_ahead_cell)row3;
        row4 = $_step(ahead, row4, columns[k + 4 * part]);
        rows[k + 4 * part] = ($_ahead_cell)row4;
        row5 = $_step(ahead, row5, columns[k + 5 * part]);
        rows[k + 5 * part] = ($_ahead_cell)row5;
    }
}

/* The same. It is quickest along parts whose length is known when this is compiled. */
$_inline void $_walk(const $_ahead *ahead, const uint16_t *columns, size_t count, $_ahead_cell *rows) {
    if (count == $_most) {
        $_walk_parts(ahead, columns, $_most, rows);
    } else {
        $_walk_parts(ahead, columns, count, rows);
    }
}

/* Walks on from the row before the place until the row is the one that stands there. */
static void $_walk_on(const $_ahead *ahead, const uint16_t *columns, size_t count, size_t from, $_ahead_cell *rows) {
    $_ahead_cell row = rows[from - 1];
    size_t at = from;
    while (at < count) {
        $_ahead_cell next = $_step(ahead, row, columns[at]);
        if (rows[at] == next) {
            return;
        }
        rows[at] = next;
        at += 1;
        /* A row often leads to itself, and such steps don't wait for each other. */
        while (next == row && at < count && rows[at] != next && $_step(ahead, next, columns[at]) == next) {
            rows[at] = next;
            at += 1;
        }
        row = next;
    }
}

/* Makes one run of those along the parts. */
static void $_join(const $_ahead *ahead, const uint16_t *columns, size_t count, $_ahead_cell *rows) {
    size_t part = count / $_walks;
    size_t walk;
    for (walk = 1; walk < $_walks; walk++) {
        $_walk_on(ahead, columns, count, walk * part, rows);
    }
}

/* The columns of the bytes of the text from a place on, and the rows that they lead to from the start, one after another: each
   stands for what is known after its byte. */
static void $_fill(const $_ahead *ahead, const $_table *table, const unsigned char *text, size_t length, size_t from,
    uint16_t *columns, size_t count, $_ahead_cell *rows) {
    $_columns_of(ahead, table, text, length, from, columns, count);
    $_walk(ahead, columns, count, rows);
    $_join(ahead, columns, count, rows);
}

/* Which of 64 rows are those of ends: a bit for each, the lowest for the first. */
static uint64_t $_ends_of(const $_ahead_cell *rows, size_t least) {
    uint64_t bits = 0;
    size_t k;
#ifdef __SSE2__
    if (sizeof($_ahead_cell) == 2 && least < 65536) {
        const __m128i lowest = _mm_set1_epi16((short)least);
        const __m128i none = _mm_setzero_si128();
        for (k = 0; k < 64; k += 16) {
            __m128i low = _mm_subs_epu16(lowest, _mm_loadu_si128((const __m128i *)(const void *)(rows + k)));
            __m128i high = _mm_subs_epu16(lowest, _mm_loadu_si128((const __m128i *)(const void *)(rows + k + 8)));
            low = _mm_packs_epi16(_mm_cmpeq_epi16(low, none), _mm_cmpeq_epi16(high, none));
            bits |= (uint64_t)(uint32_t)_mm_movemask_epi8(low) << k;
        }
        return bits;
    }
    /* Four rows of 32 bits are compared at once, as numbers with a sign: no row is 2^31 or more. */
    if (sizeof($_ahead_cell) == 4 && 0 < least && least <= 0x7FFFFFFF) {
        const __m128i before = _mm_set1_epi32((int)least - 1);
        for (k = 0; k < 64; k += 16) {
            const __m128i *at = (const __m128i *)(const void *)(rows + k);
            __m128i low = _mm_packs_epi32(_mm_cmpgt_epi32(_mm_loadu_si128(at), before), _mm_cmpgt_epi32(_mm_loadu_si128(at + 1), before));
            __m128i high = _mm_packs_epi32(_mm_cmpgt_epi32(_mm_loadu_si128(at + 2), before), _mm_cmpgt_epi32(_mm_loadu_si128(at + 3), before));
            bits |= (uint64_t)(uint32_t)_mm_movemask_epi8(_mm_packs_epi16(low, high)) << k;
        }
        return bits;
    }
#endif
    for (k = 1; k <= 64; k++) {
        bits = bits * 2 + (rows[64 - k] >= least);
    }
    return bits;
}

/* Writes a bit for each row: whether it is one of an end. */
static void $_mark_ends(const $_ahead_cell *rows, size_t count, size_t least, uint64_t *ends) {
    size_t word;
    for (word = 0; word < count / 64; word++) {
        ends[word] = $_ends_of(rows + word * 64, least);
    }
}

/* Makes a block of this size of the text from where it goes on, by the tables of the mode on top. */
static void $_fill_block(const $_ahead *ahead, const $_table *table, $_lexer *lexer, size_t size) {
    uint16_t columns[$_most];
    $_run *run = &lexer->run;
    $_fill(ahead, table, lexer->text, lexer->length, lexer->at, columns, size, run->rows);
    $_mark_ends(run->rows, size, ahead->ends, run->ends);
    run->base = lexer->at;
    run->length = size;
    run->mode = lexer->mode;
    run->word = 0;
    run->bits = run->ends[0];
}

/* The number of the lowest bit that is 1; there is one. */
$_inline size_t $_trailing_zeros(uint64_t bits) {
#ifdef __GNUC__
    return (size_t)__builtin_ctzll(bits);
#else
    size_t number = 0;
    while ((bits >> number & 1) == 0) {
        number += 1;
    }
    return number;
#endif
}

/* The next end in the block; 0 if none is left. */
$_inline size_t $_next_end($_run *run) {
    while (run->bits == 0) {
        if (run->word + 1 >= run->length / 64) {
            return 0;
        }
        run->word += 1;
        run->bits = run->ends[run->word];
    }
    return run->word * 64 + $_trailing_zeros(run->bits);
}

/* Goes on after the token that ends next. */
$_inline void $_take($_run *run) {
    run->bits &= run->bits - 1;
}

/* Whether the block tells the token that begins where the text goes on, and then its rule, and where it ends. It doesn't where
   that token is a fault, ends after the block, or ends before a longer one that then doesn't match. */
$_inline int $_known(const $_ahead *ahead, $_run *run, uint32_t *rule, size_t *token_end) {
    size_t end = $_next_end(run);
    if (end == 0) {
        return 0;
    }
    *rule = (uint32_t)ahead->cells[run->rows[end - 1] + ahead->width];
    if (*rule == $_no_rule) {
        return 0;
    }
    *token_end = run->base + end;
    return 1;
}

/* Goes on in the block at this place of the text, where this mode is on top, if that is an end in it. Otherwise no end is left
   for now. */
$_inline void $_resume($_run *run, size_t at, uint16_t mode) {
    size_t place = at - run->base;
    if (mode == run->mode && place < run->length && (run->ends[place / 64] >> (place % 64) & 1) == 1) {
        run->word = place / 64;
        run->bits = ((run->ends[place / 64] >> (place % 64)) - 1) << (place % 64);
    } else {
        run->word = run->length / 64;
        run->bits = 0;
    }
}

/* The lower number. */
$_inline size_t $_min(size_t a, size_t b) {
    return a < b ? a : b;
}

/* How many bytes to run through where the text goes on; 0 for none. At most as many as the mode on top has been there for, so a
   mode that is soon left costs little. The present block is used first, as far as it serves. */
$_inline size_t $_block_length(const $_lexer *lexer) {
    const $_run *run = &lexer->run;
    int is_inside = lexer->mode == run->mode && lexer->at - run->base < run->length;
    if (lexer->at - run->since < $_least) {
        return 0;
    }
    if (is_inside && (lexer->at == run->base || run->bits != 0 || run->word == run->length / 64)) {
        return 0;
    }
    return $_min($_min($_most, lexer->length - lexer->at), lexer->at - run->since) / $_least * $_least;
}

/* The part of the memo for the mode on top: the words of its rows that wait long, after those of the modes before. */
$_inline $_memo $_memo_part(const $_lexer *lexer) {
    const $_ahead *ahead = &$_aheads[lexer->mode];
    size_t from = $_min($_memo_words(ahead->before, lexer->length), lexer->memo_size);
    size_t to = $_min($_memo_words(ahead->before + ahead->waiting, lexer->length), lexer->memo_size);
    $_memo memo = {NULL, to - from};
    if (memo.count > 0) {
        memo.words = lexer->memo + from;
    }
    return memo;
}

/* Where the longest match from where the text goes on ends, and its rule, by a new block or without; the place itself if nothing
   matches there. */
static size_t $_found($_lexer *lexer, uint32_t *rule) {
    const $_table *table = &$_tables[lexer->mode];
    const $_ahead *ahead = &$_aheads[lexer->mode];
    size_t length = $_block_length(lexer);
    if (length > 0) {
        size_t end = 0;
        $_fill_block(ahead, table, lexer, length);
        if ($_known(ahead, &lexer->run, rule, &end)) {
            return end;
        }
    }
    return $_longest(ahead, table, lexer->text, lexer->length, lexer->at, $_memo_part(lexer), rule);
}

/* Whether the pieces of the rule have actions. */
$_inline int $_has_actions(uint32_t rule) {
    return sizeof $_actions > sizeof $_first_actions && $_actions[$_first_actions[rule]] != 0;
}

/* The token as a piece that begins at the start. */
$_inline void $_token_piece(size_t start, size_t end, uint32_t rule, $_piece *piece) {
    piece->kind = (int)$_kinds[rule];
    piece->rule = rule;
    piece->start = start;
    piece->length = end - start;
}

/* The fault that begins where the text goes on, after which it then goes on. */
static void $_fault_piece($_lexer *lexer, $_piece *piece) {
    const $_table *table = &$_tables[lexer->mode];
    const $_ahead *ahead = &$_aheads[lexer->mode];
    size_t start = lexer->at;
    lexer->at = $_fault_end(ahead, table, lexer->text, lexer->length, start, $_memo_part(lexer));
    piece->kind = $_fault;
    piece->rule = 0;
    piece->start = start;
    piece->length = lexer->at - start;
}

/* As $_next, where the block doesn't tell the token, and the end is 0, or the token's rule has actions. */
$_apart int $_next_apart($_lexer *lexer, size_t end, uint32_t rule, $_piece *piece) {
    size_t start = lexer->at;
    uint16_t mode = lexer->mode;
    size_t first;
    if (start >= lexer->length) {
        return 0;
    }
    if (end == 0) {
        end = $_found(lexer, &rule);
    }
    if (end == start) {
        $_fault_piece(lexer, piece);
        $_resume(&lexer->run, lexer->at, mode);
        return 1;
    }
    first = $_first_actions[rule];
    if (!$_has_room(first, lexer->depth, sizeof lexer->below / sizeof lexer->below[0])) {
        return -1;
    }
    $_act(first, lexer);
    lexer->at = end;
    if (lexer->mode != mode) {
        lexer->run.since = end;
    }
    $_resume(&lexer->run, end, lexer->mode);
    $_token_piece(start, end, rule, piece);
    return 1;
}

/* A lexer at the beginning of a text of `length` bytes, which must live as long as it is cut. A hostile text can take time that
   grows with the square of its length; with $_begin_linear none does. */
$_open $_lexer $_begin(const char *text, size_t length) {
    $_lexer lexer;
    lexer.text = (const unsigned char *)text;
    lexer.length = length;
    lexer.at = 0;
    lexer.mode = 0;
    lexer.depth = 0;
    lexer.memo = NULL;
    lexer.memo_size = 0;
    lexer.run.base = 0;
    lexer.run.length = 0;
    lexer.run.mode = 0;
    lexer.run.since = 0;
    lexer.run.word = 0;
    lexer.run.bits = 0;
    return lexer;
}

/* How many words of 64 bits the memo of a text of `length` bytes takes. */
$_open size_t $_memo_size(size_t length) {
    const $_ahead *last = &$_aheads[$_modes - 1];
    return $_memo_words(last->before + last->waiting, length);
}

/* As $_begin, with the same pieces, in time that grows with the length of the text alone. For that the lexer notes in the memo
   what it has read in vain. The memo has `size` words of 64 bits, as many as $_memo_size says of this length, each 0 at first (as
   calloc gives them). It must live as long as the text is cut; another text takes another one, or this one, cleared. With fewer
   words the pieces are the same, but the time can be that of $_begin. */
$_open $_lexer $_begin_linear(const char *text, size_t length, uint64_t *memo, size_t size) {
    $_lexer lexer = $_begin(text, length);
    lexer.memo = memo;
    lexer.memo_size = size;
    return lexer;
}

/* The next piece, and 1; at the end of the text 0. A piece is a token, skipped or not, or a fault: bytes at none of which
   a rule matches. If more than 1024 modes came to lie below the one on top, -1, and the lexer is as before. */
$_open int $_next($_lexer *lexer, $_piece *piece) {
    size_t start = lexer->at;
    uint32_t rule = 0;
    size_t end = 0;
    int is_known = $_known(&$_aheads[$_modes == 1 ? 0 : lexer->mode], &lexer->run, &rule, &end);
    if (is_known && !$_has_actions(rule)) {
        $_take(&lexer->run);
        lexer->at = end;
        $_token_piece(start, end, rule, piece);
        return 1;
    } else {
        /* With a piece of its own, so that the caller's can stay in registers. */
        $_piece apart = {$_fault, 0, 0, 0};
        int step = $_next_apart(lexer, end, rule, &apart);
        *piece = apart;
        return step;
    }
}

/* Moves on to the offset, if it is further on, and to the end of the text at most. A line feed ends its line, and a byte that
   doesn't follow in a character is a column. */
$_open void $_move_on($_position *position, const char *text, size_t length, size_t to) {
    const unsigned char *bytes = (const unsigned char *)text;
    while (position->at < to && position->at < length) {
        if (bytes[position->at] == '\\n') {
            position->line += 1;
            position->column = 1;
        } else if (!$_follows(bytes, length, position->at)) {
            position->column += 1;
        }
        position->at += 1;
    }
}

/* Whether the pieces of a rule are skipped. */
$_open int $_skips(uint32_t rule) {
    return $_skipped[rule];
}

/* The name of a kind; that of a fault is empty. */
$_open const char *$_name(int kind) {
    return kind == $_fault ? \"\" : $_names[kind];
}
#endif
";
