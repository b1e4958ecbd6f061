// The names lines of document 01, without their line feeds: fixed byte strings, "compared byte for
// byte" by the readers and written by the filler and the report. Their definitions are in
// specs/Names.antt.

// Lines 1 and 3 of the file that is checked; the filler writes line 3.
pub const VALUE_NAMES: [u8; 25] = *b"memory,size,count,r,a,b,c";

pub const ROW_NAMES: [u8; 36] = *b"op,guard,addr,value,old,time,version";

// Lines 1 and 3 of the filler's input.
pub const FILL_NAMES: [u8; 17] = *b"memory,size,count";

pub const INPUT_NAMES: [u8; 19] = *b"op,guard,addr,value";

// Line 1 of the report, and of the filler's refusal.
pub const REPORT_NAMES: [u8; 24] = *b"answer,line,inputs,mults";

pub const REFUSAL_NAMES: [u8; 11] = *b"answer,line";
