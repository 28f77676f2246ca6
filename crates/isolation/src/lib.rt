// Isolation, extended: which calls leave what marks answer for an account. Theorems, no code.
