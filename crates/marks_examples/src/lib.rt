// Theorems by computation about marks: no code.
