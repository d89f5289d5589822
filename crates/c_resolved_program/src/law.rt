// The laws of programs that trees spell, and of accepted texts. The function takes and answers nothing: its contract is the laws.

ghost use Rattle.c_resolved_program.specs.Laws.{ValueIsExpression, FormatIsPieces, BodyIsInOrder, GatheredIsResolved, SpelledIsResolved};
ghost use Rattle.c_resolved_program.specs.AcceptedLaws.{TreeHasValidLeaves, TreeIsNumbered, AcceptedIsResolved};

/// The program of an accepted text is resolved.
///
/// On the way, of any tree: in a scope that is in order, a value without a fault is an expression of the program behind cuts of it
/// (6.5.2.2, 6.5.13 to 6.5.15), each of which keeps its value in a local of the function; the format of a
/// printf whose string literal is one of the lexer's is in order; the body of a function, gone through without a fault from a scope
/// that is in order, is in order, and its calls and creates are found. A program that a tree spells is resolved where its
/// declarations are in order one by one (no call leads back to its caller, and each thread object has the one routine that creates
/// give it), and so where the tree's leaves are those of a text, each of its declarations has a number of 32 bits and the elements of
/// each array can be counted.
///
/// Of an accepted text: each constant of its tree is a value of its type, each string literal is printable, and the name of each
/// function and global is a letter with letters and digits; the operators that stand side by side are short circuits all or none of
/// them; no array has more than 4096 elements; and its at most 16384 tokens declare so few functions, locals, globals
/// and objects that each has a number of 32 bits.
pub fn programs_are_resolved()
    ensures value_is_expression { ValueIsExpression }
    ensures format_is_pieces { FormatIsPieces }
    ensures body_is_in_order { BodyIsInOrder }
    ensures gathered_is_resolved { GatheredIsResolved }
    ensures spelled_is_resolved { SpelledIsResolved }
    ensures accepted_has_valid_leaves { TreeHasValidLeaves }
    ensures accepted_is_numbered { TreeIsNumbered }
    ensures accepted_is_resolved { AcceptedIsResolved }
{}
