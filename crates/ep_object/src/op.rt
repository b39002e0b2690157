//! The codes of instructions.

/// The code of `Push`.
pub const PUSH: u8 = 0;
/// The code of `Text`.
pub const TEXT: u8 = 1;
/// The code of `Drop`.
pub const DROP: u8 = 2;
/// The code of `Dup`.
pub const DUP: u8 = 3;
/// The code of `Jump`.
pub const JUMP: u8 = 4;
/// The code of `JumpFalse`.
pub const JUMP_FALSE: u8 = 5;
/// The code of `Fail`.
pub const FAIL: u8 = 6;
/// The code of `Halt`.
pub const HALT: u8 = 7;
/// The code of `Call`.
pub const CALL: u8 = 8;
/// The code of `Return`.
pub const RETURN: u8 = 9;
/// The code of `Arg`.
pub const ARG: u8 = 10;
/// The code of `Peek`.
pub const PEEK: u8 = 11;
/// The code of `Slot`.
pub const SLOT: u8 = 12;
/// The code of `Unit`.
pub const UNIT: u8 = 13;
/// The code of `Bind`.
pub const BIND: u8 = 14;
/// The code of `Make`.
pub const MAKE: u8 = 15;
/// The code of `New`.
pub const NEW: u8 = 16;
/// The code of `Dispose`.
pub const DISPOSE: u8 = 17;
/// The code of `Deref`.
pub const DEREF: u8 = 18;
/// The code of `Field`.
pub const FIELD: u8 = 19;
/// The code of `Index`.
pub const INDEX: u8 = 20;
/// The code of `Disc`.
pub const DISC: u8 = 21;
/// The code of `Load`.
pub const LOAD: u8 = 22;
/// The code of `Store`.
pub const STORE: u8 = 23;
/// The code of `Undefine`.
pub const UNDEFINE: u8 = 24;
/// The code of `Add`.
pub const ADD: u8 = 25;
/// The code of `Sub`.
pub const SUB: u8 = 26;
/// The code of `Mul`.
pub const MUL: u8 = 27;
/// The code of `Div`.
pub const DIV: u8 = 28;
/// The code of `Mod`.
pub const MOD: u8 = 29;
/// The code of `Neg`.
pub const NEG: u8 = 30;
/// The code of `Abs`.
pub const ABS: u8 = 31;
/// The code of `Sqr`.
pub const SQR: u8 = 32;
/// The code of `Odd`.
pub const ODD: u8 = 33;
/// The code of `Not`.
pub const NOT: u8 = 34;
/// The code of `And`.
pub const AND: u8 = 35;
/// The code of `Or`.
pub const OR: u8 = 36;
/// The code of `Cmp`.
pub const CMP: u8 = 37;
/// The code of `Between`.
pub const BETWEEN: u8 = 38;
/// The code of `Check`.
pub const CHECK: u8 = 39;
/// The code of `Step`.
pub const STEP: u8 = 40;
/// The code of `SetNone`.
pub const SET_NONE: u8 = 41;
/// The code of `SetAdd`.
pub const SET_ADD: u8 = 42;
/// The code of `SetSpan`.
pub const SET_SPAN: u8 = 43;
/// The code of `SetOp`.
pub const SET_OP: u8 = 44;
/// The code of `SetCmp`.
pub const SET_CMP: u8 = 45;
/// The code of `In`.
pub const IN: u8 = 46;
/// The code of `Card`.
pub const CARD: u8 = 47;
/// The code of `Next`.
pub const NEXT: u8 = 48;
/// The code of `Like`.
pub const LIKE: u8 = 49;
/// The code of `Same`.
pub const SAME: u8 = 50;
/// The code of `TOrd`.
pub const T_ORD: u8 = 51;
/// The code of `TSet`.
pub const T_SET: u8 = 52;
/// The code of `TArr`.
pub const T_ARR: u8 = 53;
/// The code of `TStr`.
pub const T_STR: u8 = 54;
/// The code of `TRec`.
pub const T_REC: u8 = 55;
/// The code of `TSch`.
pub const T_SCH: u8 = 56;
/// The code of `TInit`.
pub const T_INIT: u8 = 57;
/// The code of `TConst`.
pub const T_CONST: u8 = 58;
/// The code of `Chars`.
pub const CHARS: u8 = 59;
/// The code of `ToChar`.
pub const TO_CHAR: u8 = 60;
/// The code of `Join`.
pub const JOIN: u8 = 61;
/// The code of `TextCmp`.
pub const TEXT_CMP: u8 = 62;
/// The code of `Length`.
pub const LENGTH: u8 = 63;
/// The code of `Find`.
pub const FIND: u8 = 64;
/// The code of `Cut`.
pub const CUT: u8 = 65;
/// The code of `Trim`.
pub const TRIM: u8 = 66;
/// The code of `Form`.
pub const FORM: u8 = 67;
/// The code of `Put`.
pub const PUT: u8 = 68;
/// The code of `Get`.
pub const GET: u8 = 69;
/// The code of `GetLine`.
pub const GET_LINE: u8 = 70;
/// The code of `Eof`.
pub const EOF: u8 = 71;
/// The code of `Eoln`.
pub const EOLN: u8 = 72;
/// The code of `Open`.
pub const OPEN: u8 = 73;
/// The code of `BindFile`.
pub const BIND_FILE: u8 = 74;
/// The code of `Unbind`.
pub const UNBIND: u8 = 75;
/// The code of `Binding`.
pub const BINDING: u8 = 76;
/// The code of `Defined`.
pub const DEFINED: u8 = 77;
