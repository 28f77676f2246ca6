// Theorems by computation about the rules: no code.
